// Why edits are refused.
use std::alloc::{AllocError, AllocFailed};
use std::error::Error;
use std::fmt;
use wse_path::Memory;

/// Why edits of a text can't be made. Edits are numbered as the list is, from 0, skipped ones too.
#[derive(Debug, Clone, Copy, PartialEq, Eq)]
pub enum EditsRefused {
    /// The first edit of which a position lies inside a code point, and where that code point starts, in bytes. Its
    /// start is looked at before its end.
    Inside { edit: u64, char_start: usize },
    /// The first two edits that don't fit: no pair has a lower `second`, and none with this `second` a lower `first`.
    Overlap { first: u64, second: u64 },
    /// There was no memory for the splices, or on the way to them.
    Memory,
}

impl From<Memory> for EditsRefused {
    ghost use Rattle.std.specs.Prelude.{◌≡◌};
    ghost use Rattle.wse_edits.specs.declared.refused.EditsRefused.TheVariants.{Memory};

    ghost from_gives = { λ _ why. why ≡ Memory };

    fn from(_: Memory) -> EditsRefused {
        EditsRefused::Memory
    }
}

impl From<AllocError> for EditsRefused {
    ghost use Rattle.std.specs.Prelude.{◌≡◌};
    ghost use Rattle.wse_edits.specs.declared.refused.EditsRefused.TheVariants.{Memory};

    ghost from_gives = { λ _ why. why ≡ Memory };

    fn from(_: AllocError) -> EditsRefused {
        EditsRefused::Memory
    }
}

impl<T: Drop> From<AllocFailed<T>> for EditsRefused {
    ghost use Rattle.std.specs.Prelude.{◌≡◌};
    ghost use Rattle.wse_edits.specs.declared.refused.EditsRefused.TheVariants.{Memory};

    ghost from_gives = { λ _ why. why ≡ Memory };

    fn from(_: AllocFailed<T>) -> EditsRefused {
        EditsRefused::Memory
    }
}

impl fmt::Display for EditsRefused {
    ghost use Rattle.std.specs.Prelude.{Some};
    ghost use Rattle.wse_edits.specs.Words.{refused_text};

    ghost output = { λ why. Some (refused_text why) };

    fn fmt<W: fmt::Write>(&self, f: &mut fmt::Formatter<W>) -> fmt::Result {
        match *self {
            EditsRefused::Inside { edit, char_start } => {
                write!(f, "edit {edit}: inside the character at byte {char_start}")
            }
            EditsRefused::Overlap { first, second } => {
                write!(f, "edits {first} and {second} overlap")
            }
            EditsRefused::Memory => f.write_str("out of memory"),
        }
    }
}

impl Error for EditsRefused {}
