// Why bytes are no record.
use std::error::Error;
use std::fmt;

/// Why bytes were not read as a record, or as a state. This project's own rule.
#[derive(Debug, Clone, Copy, PartialEq, Eq)]
pub enum RecordRefused {
    /// They spell none. The place is that of the first field that is cut or not allowed, or of the first byte too many.
    NotARecord { at: usize },
    /// There was no memory for the answer.
    Memory,
}

impl fmt::Display for RecordRefused {
    ghost use Rattle.std.specs.Prelude.{Some};
    ghost use Rattle.wse_codec.specs.Words.{record_text};

    ghost output = { λ why. Some (record_text why) };

    fn fmt<W: fmt::Write>(&self, f: &mut fmt::Formatter<W>) -> fmt::Result {
        match *self {
            RecordRefused::NotARecord { at } => write!(f, "not a record at byte {at}"),
            RecordRefused::Memory => f.write_str("out of memory"),
        }
    }
}

impl Error for RecordRefused {}
