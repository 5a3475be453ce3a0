// Why a line of a script is not done.
use std::alloc::{AllocError, AllocFailed};
use wse_path::Memory;

/// Why a line of a script is not done.
#[derive(Debug, Clone, Copy, PartialEq, Eq)]
pub enum Refused {
    /// It is no JSON object.
    NotJson,
    /// Its `step` is none of those that there are.
    NoStep,
    /// The member with this name is missing, or isn't what it should be.
    Member(&'static str),
    /// There was no memory.
    Memory,
}

impl From<AllocError> for Refused {
    fn from(_: AllocError) -> Refused {
        Refused::Memory
    }
}

impl<T: Drop> From<AllocFailed<T>> for Refused {
    fn from(_: AllocFailed<T>) -> Refused {
        Refused::Memory
    }
}

impl From<Memory> for Refused {
    fn from(_: Memory) -> Refused {
        Refused::Memory
    }
}

/// Tells why the line is not done.
pub fn tell_refused(out: &mut String, why: Refused) -> Result<(), Memory> {
    match why {
        Refused::NotJson => out.push_str("refused: not JSON\n")?,
        Refused::NoStep => out.push_str("refused: no such step\n")?,
        Refused::Member(name) => write!(out, "refused: member {name}\n")?,
        Refused::Memory => return Err(Memory),
    }
    Ok(())
}
