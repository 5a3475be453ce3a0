// Where a position lies in a text.
ghost use Rattle.std.specs.Prelude.{◌≡◌, IfOk, IfErr, IfSome, slice_get};
ghost use Rattle.std.specs.Str.{IsCharBoundary};
ghost use Rattle.wse_text.specs.Lines.{AreLineStarts};
ghost use Rattle.wse_text.specs.Place.{ends_line, begins_line, line_starts, line_at, units_of, place_on_line, offset_of};

use std::error::Error;
use std::fmt;
use wse_path::{Encoding, Position};

/// The position lies inside a code point.
#[derive(Debug, Clone, Copy, PartialEq, Eq)]
pub struct Inside {
    /// The place in the text at which the code point starts, in bytes.
    pub char_start: usize,
}

impl fmt::Display for Inside {
    ghost use Rattle.std.specs.Prelude.{Some};
    ghost use Rattle.wse_text.specs.Words.{inside_text};

    ghost output = { λ why. Some (inside_text why) };

    fn fmt<W: fmt::Write>(&self, f: &mut fmt::Formatter<W>) -> fmt::Result {
        let char_start = self.char_start;
        write!(f, "inside the character at byte {char_start}")
    }
}

impl Error for Inside {}

/// The place of the position in the text, in bytes: one pass to its line and through it. Takes no memory.
///
/// A character past the end of its line is the line's end (LSP 3.17, "Position"). A line past the last is the text's
/// end, and a character inside a code point has no place: this project's own readings.
pub fn offset(text: &str, enc: Encoding, pos: Position) -> Result<usize, Inside>
    ensures value { result ≡ offset_of text.now enc pos }
    ensures ok { IfOk result (IsCharBoundary text.now) }
    ensures err { IfErr result (λ e. IsCharBoundary text.now e.char_start) }

    // The starts of lines by which the place is said are those of the lines that the text is cut into.
    ensures lines { AreLineStarts text.now (line_starts text.now) }
{
    match line_start(text, pos.line) {
        Some(start) => along_line(text, start, enc, pos.character),
        None => Ok(text.len()),
    }
}

/// Where the line begins, if the text has it.
fn line_start(text: &str, line: u64) -> Option<usize>
    ensures value { result ≡ slice_get (line_starts text.now) line }
    ensures boundary { IfSome result (IsCharBoundary text.now) }
{
    let bytes = text.as_bytes();
    (0..bytes.len() + 1)
        .filter(|place| begins_line(bytes, *place))
        .nth(line as usize)
}

pub(crate) fn begins_line(text: &[u8], place: usize) -> bool
    ensures { result ≡ begins_line text.now place }
{
    if place == 0 {
        return true;
    }
    match text.get(place - 1) {
        Some(b'\n') => true,
        Some(b'\r') => text.get(place) != Some(&b'\n'),
        _ => false,
    }
}

/// The place of a character of the line that begins at `start`.
pub(crate) fn along_line(
    text: &str,
    start: usize,
    enc: Encoding,
    character: u64,
) -> Result<usize, Inside>
    requires { IsCharBoundary text.now start }
    ensures value { result ≡ place_on_line enc start (line_at text.now start) character }
    ensures ok { IfOk result (IsCharBoundary text.now) }
    ensures err { IfErr result (λ e. IsCharBoundary text.now e.char_start) }
{
    let mut place = start;
    let mut left = character;
    for point in text[start..].chars() {
        if left == 0 || ends_line(point) {
            return Ok(place);
        }
        let units = units_of(enc, point);
        if left < units {
            return Err(Inside { char_start: place });
        }
        left -= units;
        place += point.len_utf8();
    }
    Ok(place)
}

pub(crate) fn ends_line(point: char) -> bool
    ensures { result ≡ ends_line point }
{
    point == '\n' || point == '\r'
}

pub(crate) fn units_of(enc: Encoding, point: char) -> u64
    ensures { result ≡ units_of enc point }
{
    match enc {
        Encoding::Utf8 => point.len_utf8() as u64,
        Encoding::Utf16 => point.len_utf16() as u64,
        Encoding::Utf32 => 1,
    }
}
