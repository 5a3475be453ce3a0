// A reason, or want of memory.
use crate::reason::Reason;
use std::alloc::{AllocError, AllocFailed};
use wse_path::Memory;

/// Why an operation isn't done: there is a reason, or there was no memory.
#[derive(Drop)]
pub enum Stop {
    Refused(Reason),
    Memory,
}

impl From<Memory> for Stop {
    ghost use Rattle.std.specs.Prelude.{◌≡◌};
    ghost use Rattle.wse_apply.specs.declared.stop.Stop.TheVariants as stop;

    ghost from_gives = { λ _ why. why ≡ stop.Memory };

    fn from(_: Memory) -> Stop {
        Stop::Memory
    }
}

impl From<AllocError> for Stop {
    ghost use Rattle.std.specs.Prelude.{◌≡◌};
    ghost use Rattle.wse_apply.specs.declared.stop.Stop.TheVariants as stop;

    ghost from_gives = { λ _ why. why ≡ stop.Memory };

    fn from(_: AllocError) -> Stop {
        Stop::Memory
    }
}

impl<T: Drop> From<AllocFailed<T>> for Stop {
    ghost use Rattle.std.specs.Prelude.{◌≡◌};
    ghost use Rattle.wse_apply.specs.declared.stop.Stop.TheVariants as stop;

    ghost from_gives = { λ _ why. why ≡ stop.Memory };

    fn from(_: AllocFailed<T>) -> Stop {
        Stop::Memory
    }
}
