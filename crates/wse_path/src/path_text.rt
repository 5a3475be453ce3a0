// Paths as texts, and why they are none.
ghost use Rattle.std.specs.Prelude.{◌≡◌, ◌⊎◌, None, Some, map, IfOk, IfErr, OnOk};
ghost use Rattle.std.specs.Fmt.{WritesOnOk};
ghost use Rattle.wse_path.specs.Path.{bytes_of, refusal, pieces_of, text_of};

use crate::path::{PathRefused, RelPath};
use std::alloc::{AllocError, AllocFailed, Global};
use std::error::Error;
use std::fmt;

/// Why a text gives no path.
#[derive(Debug, Clone, Copy, PartialEq, Eq)]
pub enum TextRefused {
    /// The pieces between the slashes are no path.
    Path(PathRefused),
    /// There was no memory for the path. May come in place of any other answer.
    Memory,
}

impl From<AllocError> for TextRefused {
    ghost use Rattle.std.specs.Prelude.{◌≡◌};
    ghost use Rattle.wse_path.specs.declared.path_text.TextRefused.TheVariants.{Memory};

    ghost from_gives = { λ _ why. why ≡ Memory };

    fn from(_: AllocError) -> TextRefused {
        TextRefused::Memory
    }
}

impl<T: Drop> From<AllocFailed<T>> for TextRefused {
    ghost use Rattle.std.specs.Prelude.{◌≡◌};
    ghost use Rattle.wse_path.specs.declared.path_text.TextRefused.TheVariants.{Memory};

    ghost from_gives = { λ _ why. why ≡ Memory };

    fn from(_: AllocFailed<T>) -> TextRefused {
        TextRefused::Memory
    }
}

impl From<PathRefused> for TextRefused {
    ghost use Rattle.std.specs.Prelude.{◌≡◌};
    ghost use Rattle.wse_path.specs.declared.path_text.TextRefused.TheVariants.{Path};

    ghost from_gives = { λ cause why. why ≡ Path cause };

    fn from(cause: PathRefused) -> TextRefused {
        TextRefused::Path(cause)
    }
}

/// The pieces between the slashes.
fn pieces<'a>(alloc: Global, text: &'a str) -> Result<Vec<&'a str>, AllocError>
    ensures { IfOk result (λ pieces. map (λ piece. piece.now) pieces.items ≡ pieces_of text.now) }
{
    text.split('/').collect(alloc)
}

/// Each piece as a text of its own.
fn owned(alloc: Global, pieces: &[&str]) -> Result<Vec<String>, AllocError>
    ensures { IfOk result (λ texts. bytes_of texts.items ≡ map (λ piece. piece.now) pieces.now) }
{
    let mut texts = Vec::with_capacity(alloc, pieces.len())?;
    for piece in pieces {
        texts.push(String::from_str(alloc, piece)?)?;
    }
    Ok(texts)
}

impl RelPath {
    /// The path whose segments are the pieces between the text's slashes. This project's own rule.
    pub fn from_text(alloc: Global, text: &str) -> Result<RelPath, TextRefused>
        ensures ok { IfOk result (λ path. path ≡ pieces_of text.now) }
        ensures taken { OnOk result (refusal (pieces_of text.now) ≡ None) }
        ensures refused { IfErr result (λ why. (why ≡ TextRefused.Memory)
            ⊎ ((cause : PathRefused) × (why ≡ TextRefused.Path cause) × (refusal (pieces_of text.now) ≡ Some cause))) }
    {
        let pieces = pieces(alloc, text)?;
        Ok(RelPath::new(owned(alloc, &pieces)?)?)
    }
}

/// Writes the segments, joined by `/`.
fn write_joined<W: fmt::Write>(segments: &[String], f: &mut fmt::Formatter<W>) -> fmt::Result
    ensures { WritesOnOk W.write_str_gives f.old result (text_of (bytes_of segments.now)) f.new }
{
    if let [first, rest @ ..] = segments {
        f.write_str(first.as_str())?;
        for segment in rest {
            f.write_str("/")?;
            f.write_str(segment.as_str())?;
        }
    }
    Ok(())
}

/// The segments, joined by `/`.
impl fmt::Display for RelPath {
    ghost use Rattle.std.specs.Prelude.{Some};
    ghost use Rattle.wse_path.specs.Path.{text_of};

    ghost output = { λ path. Some (text_of path) };

    fn fmt<W: fmt::Write>(&self, f: &mut fmt::Formatter<W>) -> fmt::Result {
        write_joined(self.segments(), f)
    }
}

/// In the words that a refused line has for it.
impl fmt::Display for PathRefused {
    ghost use Rattle.std.specs.Prelude.{Some};
    ghost use Rattle.wse_path.specs.Path.{words_of};

    ghost output = { λ why. Some (words_of why) };

    fn fmt<W: fmt::Write>(&self, f: &mut fmt::Formatter<W>) -> fmt::Result {
        match *self {
            PathRefused::Empty => f.write_str("no segment"),
            PathRefused::TooDeep { depth } => write!(f, "{depth} segments"),
            PathRefused::Segment { index } => write!(f, "segment {index} is not a name"),
            PathRefused::TooLong { bytes } => write!(f, "{bytes} bytes"),
        }
    }
}

impl Error for PathRefused {}

/// A refused path in its words.
impl fmt::Display for TextRefused {
    ghost use Rattle.std.specs.Prelude.{Some};
    ghost use Rattle.wse_path.specs.Words.{words_of_text};

    ghost output = { λ why. Some (words_of_text why) };

    fn fmt<W: fmt::Write>(&self, f: &mut fmt::Formatter<W>) -> fmt::Result {
        match *self {
            TextRefused::Path(why) => write!(f, "{why}"),
            TextRefused::Memory => f.write_str("out of memory"),
        }
    }
}

impl Error for TextRefused {}
