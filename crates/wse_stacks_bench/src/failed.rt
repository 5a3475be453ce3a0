// A command that couldn't be done.
use std::alloc::{AllocError, AllocFailed};
use wse_path::Memory;
use wse_stacks::{ReserveRefused, StacksRefused};

/// There was no memory, or the shape of the history is wrong.
#[derive(Clone, Copy)]
pub struct Failed;

impl From<Memory> for Failed {
    fn from(_: Memory) -> Failed {
        Failed
    }
}

impl From<StacksRefused> for Failed {
    fn from(_: StacksRefused) -> Failed {
        Failed
    }
}

impl From<ReserveRefused> for Failed {
    fn from(_: ReserveRefused) -> Failed {
        Failed
    }
}

impl From<AllocError> for Failed {
    fn from(_: AllocError) -> Failed {
        Failed
    }
}

impl<T: Drop> From<AllocFailed<T>> for Failed {
    fn from(_: AllocFailed<T>) -> Failed {
        Failed
    }
}
