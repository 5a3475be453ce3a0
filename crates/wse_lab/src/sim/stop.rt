// Why trying a script stops.
use std::alloc::{AllocError, AllocFailed};
use wse_path::Memory;

/// Why trying a script stops.
#[derive(Drop)]
pub enum SimStop {
    /// Something is otherwise than it should be.
    Differs(String),
    Memory,
}

impl From<AllocError> for SimStop {
    fn from(_: AllocError) -> SimStop {
        SimStop::Memory
    }
}

impl<T: Drop> From<AllocFailed<T>> for SimStop {
    fn from(_: AllocFailed<T>) -> SimStop {
        SimStop::Memory
    }
}

impl From<Memory> for SimStop {
    fn from(_: Memory) -> SimStop {
        SimStop::Memory
    }
}
