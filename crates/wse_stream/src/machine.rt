// Machines over lines, for laws about all of them.
ghost use Rattle.wse_stream.specs.Machine.{Machine};

/// A type that stands for a machine over lines.
pub trait HasMachine {
    /// The machine's states.
    ghost State: { Type 0 };

    ghost machine: { Machine State };
}
