// Why a line is no command.
use std::alloc::{AllocError, AllocFailed};
use wse_path::{Memory, Text};
use wse_uri::UriRefused;

/// Why a line is no command: the first check that it fails, in the order of the language. A pointer is a JSON Pointer
/// (RFC 6901). This project's own.
#[derive(Drop)]
pub enum Shape {
    /// The line is no JSON, as `serde_json` reads it. Bytes that are no UTF-8 are none.
    NotJson,
    /// What the pointer leads to is required and missing or null, or is of another kind, out of its range, none of its
    /// texts, or too long.
    Field { pointer: Text },
    /// The URI to which the pointer leads, or that names the entry, names no path below the root. Want of memory is no
    /// such cause.
    Uri { pointer: Text, why: UriRefused },
    /// A change refers to an annotation that isn't there.
    Annotation { id: Text },
    /// There was no memory for the answer. May come in place of any other answer.
    Memory,
}

impl From<Memory> for Shape {
    ghost use Rattle.std.specs.Prelude.{◌≡◌};
    ghost use Rattle.wse_json.specs.declared.shape.Shape.TheVariants.{Memory};

    ghost from_gives = { λ _ why. why ≡ Memory };

    fn from(_: Memory) -> Shape {
        Shape::Memory
    }
}

impl From<AllocError> for Shape {
    ghost use Rattle.std.specs.Prelude.{◌≡◌};
    ghost use Rattle.wse_json.specs.declared.shape.Shape.TheVariants.{Memory};

    ghost from_gives = { λ _ why. why ≡ Memory };

    fn from(_: AllocError) -> Shape {
        Shape::Memory
    }
}

impl<T: Drop> From<AllocFailed<T>> for Shape {
    ghost use Rattle.std.specs.Prelude.{◌≡◌};
    ghost use Rattle.wse_json.specs.declared.shape.Shape.TheVariants.{Memory};

    ghost from_gives = { λ _ why. why ≡ Memory };

    fn from(_: AllocFailed<T>) -> Shape {
        Shape::Memory
    }
}
