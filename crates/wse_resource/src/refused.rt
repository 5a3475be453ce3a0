// Why a resource operation isn't done.
use std::alloc::{AllocError, AllocFailed};
use std::error::Error;
use std::fmt;
use wse_path::{Memory, RelPath};

/// Why a resource operation isn't done. Of several causes the one that the table of operations names first counts: this
/// project's own rule.
#[derive(Debug, Drop)]
pub enum OpRefused {
    /// There is a file or a folder at the path already, and neither option says what to do.
    Exists,
    /// The path of a create is a folder.
    IsFolder,
    /// A file stands above the path.
    Beneath { file: RelPath },
    /// Nothing is at the path.
    NotFound,
    /// The path of a delete is a folder, and `recursive` isn't set.
    NotEmpty,
    /// The new path of a rename is under the old one.
    IntoItself,
    /// The old path of a rename is under the new one.
    HoldsSource,
    /// The first file in path order, by where it stands before, whose new path would pass a limit of paths.
    PathLimit { from: RelPath },
    /// There was no memory for the answer. May come in place of any other answer.
    Memory,
}

impl From<Memory> for OpRefused {
    ghost use Rattle.std.specs.Prelude.{◌≡◌};
    ghost use Rattle.wse_resource.specs.declared.refused.OpRefused.TheVariants as refused;

    ghost from_gives = { λ _ why. why ≡ refused.Memory };

    fn from(_: Memory) -> OpRefused {
        OpRefused::Memory
    }
}

impl From<AllocError> for OpRefused {
    ghost use Rattle.std.specs.Prelude.{◌≡◌};
    ghost use Rattle.wse_resource.specs.declared.refused.OpRefused.TheVariants as refused;

    ghost from_gives = { λ _ why. why ≡ refused.Memory };

    fn from(_: AllocError) -> OpRefused {
        OpRefused::Memory
    }
}

impl<T: Drop> From<AllocFailed<T>> for OpRefused {
    ghost use Rattle.std.specs.Prelude.{◌≡◌};
    ghost use Rattle.wse_resource.specs.declared.refused.OpRefused.TheVariants as refused;

    ghost from_gives = { λ _ why. why ≡ refused.Memory };

    fn from(_: AllocFailed<T>) -> OpRefused {
        OpRefused::Memory
    }
}

impl fmt::Display for OpRefused {
    ghost use Rattle.std.specs.Prelude.{Some};
    ghost use Rattle.wse_resource.specs.Words.{operation_text};

    ghost output = { λ why. Some (operation_text why) };

    fn fmt<W: fmt::Write>(&self, f: &mut fmt::Formatter<W>) -> fmt::Result {
        match self {
            OpRefused::Exists => f.write_str("exists"),
            OpRefused::IsFolder => f.write_str("is a folder"),
            OpRefused::Beneath { file } => write!(f, "beneath the file {file}"),
            OpRefused::NotFound => f.write_str("not found"),
            OpRefused::NotEmpty => f.write_str("folder needs recursive"),
            OpRefused::IntoItself => f.write_str("into itself"),
            OpRefused::HoldsSource => f.write_str("target holds the source"),
            OpRefused::PathLimit { from } => write!(f, "path limit for {from}"),
            OpRefused::Memory => f.write_str("out of memory"),
        }
    }
}

impl Error for OpRefused {}

impl PartialEq for OpRefused {
    ghost use Rattle.std.specs.Prelude.{nat_eq, ◌≡◌, ◌↔◌, IsTrue};
    ghost use Rattle.std.specs.Cmp.Lexicographic.{pointwise, lists_equiv, nat_list_eq_equiv};
    ghost use Rattle.std.specs.Cmp.{on_equiv, partial_equiv_from_equiv};
    ghost use Rattle.wse_resource.specs.Same.{parts_of, is_same};

    ghost eq = { is_same };

    ghost laws = { partial_equiv_from_equiv (on_equiv parts_of (lists_equiv nat_list_eq_equiv)) };

    fn eq(&self, other: &OpRefused) -> bool
        ensures eq { result ≡ is_same self.now other.now }
        ensures same { IsTrue result ↔ (self.now ≡ other.now) }
    {
        match (self, other) {
            (OpRefused::Exists, OpRefused::Exists)
            | (OpRefused::IsFolder, OpRefused::IsFolder)
            | (OpRefused::NotFound, OpRefused::NotFound)
            | (OpRefused::NotEmpty, OpRefused::NotEmpty)
            | (OpRefused::IntoItself, OpRefused::IntoItself)
            | (OpRefused::HoldsSource, OpRefused::HoldsSource)
            | (OpRefused::Memory, OpRefused::Memory) => true,
            (OpRefused::Beneath { file }, OpRefused::Beneath { file: other }) => *file == *other,
            (OpRefused::PathLimit { from }, OpRefused::PathLimit { from: other }) => {
                *from == *other
            }
            _ => false,
        }
    }
}

impl Eq for OpRefused {
    ghost use Rattle.std.specs.Cmp.Lexicographic.{lists_equiv, nat_list_eq_equiv};
    ghost use Rattle.std.specs.Cmp.{on_equiv};
    ghost use Rattle.wse_resource.specs.Same.{parts_of};

    ghost laws = { on_equiv parts_of (lists_equiv nat_list_eq_equiv) };
}
