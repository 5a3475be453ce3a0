// Places in a text, as a client names them, and edits there.
use crate::items::Duplicate;
use crate::memory::Memory;
use crate::text::Text;
use std::alloc::Global;

/// A place in a text: a line and a character on it, both counted from 0 (LSP 3.17, "Position"). What a character is
/// the encoding says. LSP's numbers end at 2^31-1; up to 2^64-1 is this project's own reading.
#[derive(Debug, Clone, Copy, PartialEq, Eq)]
pub struct Position {
    pub line: u64,
    pub character: u64,
}

impl Duplicate for Position {
    fn duplicate(&self, _alloc: Global) -> Result<Position, Memory> {
        Ok(*self)
    }
}

/// What `character` counts (LSP 3.17, "PositionEncodingKind").
#[derive(Debug, Clone, Copy, PartialEq, Eq)]
pub enum Encoding {
    /// Bytes.
    Utf8,
    /// UTF-16 code units.
    Utf16,
    /// Code points.
    Utf32,
}

/// A text in place of a range (LSP 3.17, "TextEdit"). A skipped one changes nothing: it waits for a confirmation.
#[derive(Debug, Drop)]
pub struct TextEdit {
    pub start: Position,
    pub end: Position,
    pub new_text: Text,
    pub skipped: bool,
}

impl Duplicate for TextEdit {
    fn duplicate(&self, alloc: Global) -> Result<TextEdit, Memory> {
        Ok(TextEdit {
            start: self.start,
            end: self.end,
            new_text: self.new_text.duplicate(alloc)?,
            skipped: self.skipped,
        })
    }
}
