// Labels of edits.
ghost use Rattle.std.specs.Prelude.{◌≡◌, length, nat_eq, string_bytes};
ghost use Rattle.wse_path.specs.Label.{IsLabel};

use crate::items::Duplicate;
use crate::memory::Memory;
use std::alloc::Global;
use std::marker::Model;

/// What an edit is called where it is undone: a text of at most 1,024 bytes. This project's own limit. Contracts see its
/// bytes.
#[derive(Drop)]
pub struct Label {
    text: String,
}

impl Model for Label {
    ghost use Rattle.std.specs.Prelude.{List, ℕ, string_bytes};
    ghost use Rattle.wse_path.specs.Label.{IsLabel};

    ghost Value = { List ℕ };

    ghost view = { λ a. string_bytes a.text };

    ghost invariant = { λ a. IsLabel (string_bytes a.text) };
}

impl Label {
    /// The most bytes of a label.
    pub const MAX: usize = 1024;

    /// The label with this text. Takes no memory.
    pub fn new(text: String) -> Label
        requires { IsLabel (string_bytes text) }
        ensures { result ≡ string_bytes text }
    {
        Label { text }
    }

    /// How many bytes it has.
    pub fn len(&self) -> usize
        ensures bytes { result ≡ length self.now }
        ensures short { IsLabel self.now }
    {
        self.text.len()
    }

    /// Whether it has none.
    pub fn is_empty(&self) -> bool
        ensures { result ≡ nat_eq (length self.now) 0 }
    {
        self.text.is_empty()
    }

    /// The label as a text.
    pub fn as_str(&self) -> &str
        ensures { result.now ≡ self.now }
    {
        self.text.as_str()
    }
}

impl Duplicate for Label {
    fn duplicate(&self, alloc: Global) -> Result<Label, Memory> {
        let text = String::from_str(alloc, self.text.as_str())?;
        Ok(Label { text })
    }
}
