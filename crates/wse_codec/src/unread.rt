// Why a piece was not read.
ghost use Rattle.std.specs.Prelude.{◌≡◌};
ghost use Rattle.wse_codec.specs.declared.unread.Unread.TheVariants.{Memory as NoMemory};
ghost use Rattle.wse_codec.specs.Answers.{refusal_in, IsWithin};

use crate::refused::RecordRefused;
use std::alloc::{AllocError, AllocFailed};
use wse_path::Memory;

/// Why a piece was not read: there was no memory, or a field is cut or not allowed, and so many bytes are left from its
/// first one on.
#[derive(Drop)]
pub(crate) enum Unread {
    Memory,
    Wrong { left: usize },
}

impl From<Memory> for Unread {
    ghost from_gives = { λ _ e. e ≡ NoMemory };

    fn from(_: Memory) -> Unread {
        Unread::Memory
    }
}

impl From<AllocError> for Unread {
    ghost from_gives = { λ _ e. e ≡ NoMemory };

    fn from(_: AllocError) -> Unread {
        Unread::Memory
    }
}

impl<T: Drop> From<AllocFailed<T>> for Unread {
    ghost from_gives = { λ _ e. e ≡ NoMemory };

    fn from(_: AllocFailed<T>) -> Unread {
        Unread::Memory
    }
}

impl Unread {
    /// The same with its place in these bytes.
    pub(crate) fn refused(self, body: &[u8]) -> RecordRefused
        ensures same { result ≡ refusal_in body.now self }
        ensures within { IsWithin body.now result }
    {
        match self {
            Unread::Memory => RecordRefused::Memory,
            Unread::Wrong { left } => RecordRefused::NotARecord {
                at: body.len().saturating_sub(left),
            },
        }
    }
}
