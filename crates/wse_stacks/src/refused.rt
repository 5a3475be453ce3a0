// Why elements or effects are refused.
use std::error::Error;
use std::fmt;
use wse_path::Memory;

/// Why elements make no stacks.
#[derive(Debug, Clone, Copy, PartialEq, Eq)]
pub enum StacksRefused {
    /// The elements up to the one with this index aren't linked. The number of elements: they are, but a number passes its
    /// bound.
    NotLinked { index: usize },
    /// There was no memory. May come in place of any other answer.
    Memory,
}

impl From<Memory> for StacksRefused {
    ghost use Rattle.std.specs.Prelude.{◌≡◌};
    ghost use Rattle.wse_stacks.specs.declared.refused.StacksRefused.TheVariants as refused;

    ghost from_gives = { λ _ why. why ≡ refused.Memory };

    fn from(_: Memory) -> StacksRefused {
        StacksRefused::Memory
    }
}

impl fmt::Display for StacksRefused {
    ghost use Rattle.std.specs.Prelude.{Some};
    ghost use Rattle.wse_stacks.specs.Words.{stacks_text};

    ghost output = { λ why. Some (stacks_text why) };

    fn fmt<W: fmt::Write>(&self, f: &mut fmt::Formatter<W>) -> fmt::Result {
        match *self {
            StacksRefused::NotLinked { index } => write!(f, "not linked at element {index}"),
            StacksRefused::Memory => f.write_str("out of memory"),
        }
    }
}

impl Error for StacksRefused {}

/// Why a list of effects isn't prepared.
#[derive(Debug, Clone, Copy, PartialEq, Eq)]
pub enum ReserveRefused {
    /// The effect with this index isn't applicable after those before it, which are.
    NotApplicable { index: usize },
    /// There was no memory. May come in place of any other answer.
    Memory,
}

impl From<Memory> for ReserveRefused {
    ghost use Rattle.std.specs.Prelude.{◌≡◌};
    ghost use Rattle.wse_stacks.specs.declared.refused.ReserveRefused.TheVariants as refused;

    ghost from_gives = { λ _ why. why ≡ refused.Memory };

    fn from(_: Memory) -> ReserveRefused {
        ReserveRefused::Memory
    }
}

impl fmt::Display for ReserveRefused {
    ghost use Rattle.std.specs.Prelude.{Some};
    ghost use Rattle.wse_stacks.specs.Words.{reserve_text};

    ghost output = { λ why. Some (reserve_text why) };

    fn fmt<W: fmt::Write>(&self, f: &mut fmt::Formatter<W>) -> fmt::Result {
        match *self {
            ReserveRefused::NotApplicable { index } => {
                write!(f, "effect {index} is not applicable")
            }
            ReserveRefused::Memory => f.write_str("out of memory"),
        }
    }
}

impl Error for ReserveRefused {}
