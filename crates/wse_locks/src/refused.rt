// Why locks aren't taken or freed.
ghost use Rattle.std.specs.Prelude.{codes};
ghost use Rattle.std.specs.List.{join_by};
ghost use Rattle.std.specs.Fmt.{WritesOnOk};
ghost use Rattle.wse_path.specs.Path.{text_of};

use std::error::Error;
use std::fmt;
use wse_path::{Files, Memory, RelPath};

/// Why locks aren't taken.
#[derive(Debug, Drop)]
pub enum LockRefused {
    /// The named paths that another participant holds, each once, in path order.
    Held { files: Files },
    /// There was no memory. May come in place of any other answer.
    Memory,
}

impl From<Memory> for LockRefused {
    ghost use Rattle.std.specs.Prelude.{◌≡◌};
    ghost use Rattle.wse_locks.specs.declared.refused.LockRefused.TheVariants as refused;

    ghost from_gives = { λ _ why. why ≡ refused.Memory };

    fn from(_: Memory) -> LockRefused {
        LockRefused::Memory
    }
}

/// Writes the paths with a comma and a space between them.
fn write_files<W: fmt::Write>(files: &[RelPath], f: &mut fmt::Formatter<W>) -> fmt::Result
    ensures { WritesOnOk W.write_str_gives f.old result (join_by text_of (codes ", ") files.now) f.new }
{
    if let [first, rest @ ..] = files {
        write!(f, "{first}")?;
        for file in rest {
            write!(f, ", {file}")?;
        }
    }
    Ok(())
}

impl fmt::Display for LockRefused {
    ghost use Rattle.std.specs.Prelude.{Some};
    ghost use Rattle.wse_locks.specs.Words.{refused_text};

    ghost output = { λ why. Some (refused_text why) };

    fn fmt<W: fmt::Write>(&self, f: &mut fmt::Formatter<W>) -> fmt::Result {
        match self {
            LockRefused::Held { files } => {
                f.write_str("held: ")?;
                write_files(files.as_slice(), f)
            }
            LockRefused::Memory => f.write_str("out of memory"),
        }
    }
}

impl Error for LockRefused {}

/// The participant doesn't hold the named path with this index, and holds those named before it.
#[derive(Debug, Clone, Copy, PartialEq, Eq)]
pub struct NotHeld {
    pub index: usize,
}

impl fmt::Display for NotHeld {
    ghost use Rattle.std.specs.Prelude.{Some};
    ghost use Rattle.wse_locks.specs.Words.{not_held_text};

    ghost output = { λ why. Some (not_held_text why) };

    fn fmt<W: fmt::Write>(&self, f: &mut fmt::Formatter<W>) -> fmt::Result {
        let index = self.index;
        write!(f, "path {index} is not held")
    }
}

impl Error for NotHeld {}
