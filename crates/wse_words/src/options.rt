// How a run starts and how much it reads.
ghost use Rattle.std.specs.Prelude.{◌≤◌, ◌^◌};

/// How a run starts and how much it reads.
#[derive(Clone, Copy)]
pub struct Options {
    /// Whether paths whose content differs from the history's are adopted.
    pub adopt: bool,
    /// The most bytes of input, from 1 to 2^62.
    pub max_input: u64,
    ghost some: { 1 ≤ max_input },
    ghost countable: { max_input ≤ 2 ^ 62 },
}
