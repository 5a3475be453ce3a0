// Why a text names no path, or no root.
use std::alloc::{AllocError, AllocFailed};
use std::error::Error;
use std::fmt;
use wse_path::{Memory, PathRefused};

/// Why a URI names no path below a root. The first cause in this order counts. This project's own rule.
#[derive(Debug, Clone, Copy, PartialEq, Eq)]
pub enum UriRefused {
    /// The text doesn't parse, as the URL Standard reads it.
    NotUrl,
    /// The scheme isn't `file`.
    NotFile,
    /// The host isn't empty.
    HasHost,
    /// There is a query, even an empty one.
    HasQuery,
    /// There is a fragment, even an empty one.
    HasFragment,
    /// The URI's segments don't begin with the root's.
    OutsideRoot,
    /// No segment is left behind the root's.
    IsRoot,
    /// The first segment left that isn't UTF-8, counted from 0 below the root.
    Escape { segment: usize },
    /// The segments left are no path. Their places are counted below the root.
    Path(PathRefused),
    /// There was no memory for the answer. May come in place of any other answer.
    Memory,
}

impl From<Memory> for UriRefused {
    ghost use Rattle.std.specs.Prelude.{◌≡◌};
    ghost use Rattle.wse_uri.specs.declared.refused.UriRefused.TheVariants.{Memory};

    ghost from_gives = { λ _ why. why ≡ Memory };

    fn from(_: Memory) -> UriRefused {
        UriRefused::Memory
    }
}

impl From<AllocError> for UriRefused {
    ghost use Rattle.std.specs.Prelude.{◌≡◌};
    ghost use Rattle.wse_uri.specs.declared.refused.UriRefused.TheVariants.{Memory};

    ghost from_gives = { λ _ why. why ≡ Memory };

    fn from(_: AllocError) -> UriRefused {
        UriRefused::Memory
    }
}

impl<T: Drop> From<AllocFailed<T>> for UriRefused {
    ghost use Rattle.std.specs.Prelude.{◌≡◌};
    ghost use Rattle.wse_uri.specs.declared.refused.UriRefused.TheVariants.{Memory};

    ghost from_gives = { λ _ why. why ≡ Memory };

    fn from(_: AllocFailed<T>) -> UriRefused {
        UriRefused::Memory
    }
}

impl From<PathRefused> for UriRefused {
    ghost use Rattle.std.specs.Prelude.{◌≡◌};
    ghost use Rattle.wse_uri.specs.declared.refused.UriRefused.TheVariants.{Path};

    ghost from_gives = { λ cause why. why ≡ Path cause };

    fn from(cause: PathRefused) -> UriRefused {
        UriRefused::Path(cause)
    }
}

impl fmt::Display for UriRefused {
    ghost use Rattle.std.specs.Prelude.{Some};
    ghost use Rattle.wse_uri.specs.Words.{uri_text};

    ghost output = { λ why. Some (uri_text why) };

    fn fmt<W: fmt::Write>(&self, f: &mut fmt::Formatter<W>) -> fmt::Result {
        match *self {
            UriRefused::NotUrl => f.write_str("not a URL"),
            UriRefused::NotFile => f.write_str("not a file URI"),
            UriRefused::HasHost => f.write_str("has a host"),
            UriRefused::HasQuery => f.write_str("has a query"),
            UriRefused::HasFragment => f.write_str("has a fragment"),
            UriRefused::OutsideRoot => f.write_str("outside the root"),
            UriRefused::IsRoot => f.write_str("is the root"),
            UriRefused::Escape { segment } => write!(f, "segment {segment} is not UTF-8"),
            UriRefused::Path(why) => write!(f, "{why}"),
            UriRefused::Memory => f.write_str("out of memory"),
        }
    }
}

impl Error for UriRefused {}

/// Why a text is no root.
#[derive(Debug, Clone, Copy, PartialEq, Eq)]
pub enum RootRefused {
    /// The text doesn't parse to a file URL without host, query and fragment, as the URL Standard reads it.
    NotARoot,
    /// There was no memory for the answer. May come in place of any other answer.
    Memory,
}

impl From<Memory> for RootRefused {
    ghost use Rattle.std.specs.Prelude.{◌≡◌};
    ghost use Rattle.wse_uri.specs.declared.refused.RootRefused.TheVariants.{Memory};

    ghost from_gives = { λ _ why. why ≡ Memory };

    fn from(_: Memory) -> RootRefused {
        RootRefused::Memory
    }
}

impl From<AllocError> for RootRefused {
    ghost use Rattle.std.specs.Prelude.{◌≡◌};
    ghost use Rattle.wse_uri.specs.declared.refused.RootRefused.TheVariants.{Memory};

    ghost from_gives = { λ _ why. why ≡ Memory };

    fn from(_: AllocError) -> RootRefused {
        RootRefused::Memory
    }
}

impl<T: Drop> From<AllocFailed<T>> for RootRefused {
    ghost use Rattle.std.specs.Prelude.{◌≡◌};
    ghost use Rattle.wse_uri.specs.declared.refused.RootRefused.TheVariants.{Memory};

    ghost from_gives = { λ _ why. why ≡ Memory };

    fn from(_: AllocFailed<T>) -> RootRefused {
        RootRefused::Memory
    }
}

/// Want of memory stays want of memory, and every other cause makes a text no root.
impl From<UriRefused> for RootRefused {
    ghost use Rattle.std.specs.Prelude.{◌≡◌};
    ghost use Rattle.wse_uri.specs.FileUrl.{root_refusal};

    ghost from_gives = { λ cause why. why ≡ root_refusal cause };

    fn from(cause: UriRefused) -> RootRefused {
        match cause {
            UriRefused::Memory => RootRefused::Memory,
            _ => RootRefused::NotARoot,
        }
    }
}

/// Below a text that is no root no URI names a path.
impl From<RootRefused> for UriRefused {
    ghost use Rattle.std.specs.Prelude.{◌≡◌};
    ghost use Rattle.wse_uri.specs.FileUrl.{uri_refusal};

    ghost from_gives = { λ cause why. why ≡ uri_refusal cause };

    fn from(cause: RootRefused) -> UriRefused {
        match cause {
            RootRefused::NotARoot => UriRefused::OutsideRoot,
            RootRefused::Memory => UriRefused::Memory,
        }
    }
}

impl fmt::Display for RootRefused {
    ghost use Rattle.std.specs.Prelude.{Some};
    ghost use Rattle.wse_uri.specs.Words.{root_text};

    ghost output = { λ why. Some (root_text why) };

    fn fmt<W: fmt::Write>(&self, f: &mut fmt::Formatter<W>) -> fmt::Result {
        match *self {
            RootRefused::NotARoot => {
                f.write_str("not a file URL without host, query and fragment")
            }
            RootRefused::Memory => f.write_str("out of memory"),
        }
    }
}

impl Error for RootRefused {}
