// Bytes that are a text, and bytes that are none.
ghost use Rattle.std.specs.Prelude.{◌≡◌, IfOk, IfErr, OnOk, OnErr};
ghost use Rattle.std.specs.Str.{IsUtf8};
ghost use Rattle.std.specs.Str.Lossy.{utf8_valid_len};

use std::error::Error;
use std::fmt;

/// The bytes are not UTF-8.
#[derive(Debug, Clone, Copy, PartialEq, Eq)]
pub struct NotText {
    /// How many bytes there are in the longest prefix that is UTF-8.
    pub at: usize,
}

impl fmt::Display for NotText {
    ghost use Rattle.std.specs.Prelude.{Some};
    ghost use Rattle.wse_text.specs.Words.{not_text_text};

    ghost output = { λ why. Some (not_text_text why) };

    fn fmt<W: fmt::Write>(&self, f: &mut fmt::Formatter<W>) -> fmt::Result {
        let at = self.at;
        write!(f, "not UTF-8 at byte {at}")
    }
}

impl Error for NotText {}

/// The bytes as a text. Takes no memory.
pub fn as_text(bytes: &[u8]) -> Result<&str, NotText>
    ensures same { IfOk result (λ text. text.now ≡ bytes.now) }
    ensures ok { OnOk result (IsUtf8 bytes.now) }
    ensures err { OnErr result (¬ IsUtf8 bytes.now) }
    ensures at { IfErr result (λ e. e.at ≡ utf8_valid_len bytes.now) }
{
    str::from_utf8(bytes).map_err(|e| NotText {
        at: e.valid_up_to(),
    })
}
