// Ranges of a text and what stands in their place.
ghost use Rattle.std.specs.Prelude.{◌≡◌, length, IfOk};
ghost use Rattle.std.specs.Str.{IsUtf8};
ghost use Rattle.wse_splice.specs.Splice.{Fits, LieBetweenCharacters, spliced};

use std::alloc::Global;
use wse_path::{Bytes, Duplicate, Items, Memory, Text};

/// A text in place of the bytes from `start` up to `end`, both counted from the start of the old text. Where they are
/// equal it is an insert.
#[derive(Drop)]
pub struct Splice {
    pub start: usize,
    pub end: usize,
    pub text: Text,
}

impl Duplicate for Splice {
    fn duplicate(&self, alloc: Global) -> Result<Splice, Memory> {
        Ok(Splice {
            start: self.start,
            end: self.end,
            text: self.text.duplicate(alloc)?,
        })
    }
}

/// Splices of one text, in the order of their places.
pub type Splices = Items<Splice>;

/// The text after the splices, all of which speak of the text before. Inserts at one place appear in the order of the
/// list. It takes the time of the text before and of the texts put in.
pub fn apply(alloc: Global, text: &[u8], splices: &[Splice]) -> Result<Bytes, Memory>
    requires { Fits splices.now (length text.now) }
    ensures value { IfOk result (λ after. after ≡ spliced text.now splices.now) }

    // Of a UTF-8 text they leave UTF-8, if no range begins or ends inside a character.
    ensures utf8 { IsUtf8 text.now → LieBetweenCharacters text.now splices.now → IfOk result IsUtf8 }
{
    let mut after = Vec::new(alloc);
    let mut done = 0;
    for splice in splices {
        after.extend_from_slice(&text[done..splice.start])?;
        after.extend_from_slice(splice.text.as_str().as_bytes())?;
        done = splice.end;
    }
    after.extend_from_slice(&text[done..])?;
    Ok(Bytes::new(after))
}
