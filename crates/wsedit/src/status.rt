// How a run ends, as a status and as a line for people.
ghost use Rattle.std.specs.Prelude.{◌≡◌, List, OnOk};
ghost use Rattle.wse_path.specs.Causes.{HasCause};
ghost use Rattle.wse_io.specs.Stream.{Piece, Adds, IsPrefix, bytes_of};
ghost use Rattle.wsedit.specs.Status.{code_of, code_of_end, line_of, line_of_end};

use crate::telling::{emit_number, emit_path, emit_two, too_big_words};
use wse_disk::Disk;
use wse_io::{Sink, WriteFailed, emit_all};
use wse_run::RunEnd;
use wse_words::usage_text;

/// How the program ends.
#[derive(Drop)]
pub enum Status {
    /// The words weren't understood.
    Words,
    /// What the words ask for was begun, and ended so.
    Ran(RunEnd),
}

fn code_of_end(end: &RunEnd) -> u8
    ensures { result ≡ code_of_end end.now }
{
    match end {
        RunEnd::Done => 0,
        RunEnd::Read => 3,
        RunEnd::Write => 4,
        RunEnd::Disk => 5,
        RunEnd::Memory => 6,
        RunEnd::NotAStore { at: _ } => 7,
        RunEnd::TooBig(_) => 8,
        RunEnd::InputLimit { limit: _ } => 9,
        RunEnd::Differs(_) => 10,
    }
}

/// Emits the line that tells people of an end, none at Done.
fn tell_end<E: Sink, D: Disk>(end: &RunEnd, errs: &mut E, disk: &D) -> Result<(), WriteFailed>
    ensures told { (told : List Piece) × Adds (E.pieces errs.old) (E.pieces errs.new) told
        × IsPrefix (bytes_of told) (line_of_end end.now)
        × OnOk result (bytes_of told ≡ line_of_end end.now) }
    ensures cause { HasCause (E.faults errs.old) (E.faults errs.new) result }
{
    match end {
        RunEnd::Done => emit_all(errs, disk, b""),
        RunEnd::Read => emit_all(errs, disk, b"wsedit: reading failed\n"),
        RunEnd::Write => emit_all(errs, disk, b"wsedit: writing failed\n"),
        RunEnd::Disk => emit_all(errs, disk, b"wsedit: disk failed\n"),
        RunEnd::Memory => emit_all(errs, disk, b"wsedit: out of memory\n"),
        RunEnd::NotAStore { at } => {
            emit_number(errs, disk, "wsedit: not a store: byte ", *at, "\n")
        }
        RunEnd::TooBig(hit) => {
            emit_number(errs, disk, too_big_words(hit.which), hit.would_be, "\n")
        }
        RunEnd::InputLimit { limit } => {
            emit_number(errs, disk, "wsedit: input past ", *limit, " bytes\n")
        }
        RunEnd::Differs(path) => emit_path(errs, disk, "wsedit: differs: ", path),
    }
}

impl Status {
    /// The number with which the program ends.
    pub fn code(&self) -> u8
        ensures { result ≡ code_of self.now }
    {
        match self {
            Status::Words => 2,
            Status::Ran(end) => code_of_end(end),
        }
    }

    /// Emits the line that tells people of the status, none at Done; where the words weren't understood, with those that are.
    /// Takes no memory.
    pub fn tell<E: Sink, D: Disk>(&self, errs: &mut E, disk: &D) -> Result<(), WriteFailed>
        ensures told { (told : List Piece) × Adds (E.pieces errs.old) (E.pieces errs.new) told
            × IsPrefix (bytes_of told) (line_of self.now)
            × OnOk result (bytes_of told ≡ line_of self.now) }
        ensures cause { HasCause (E.faults errs.old) (E.faults errs.new) result }
    {
        match self {
            Status::Words => {
                emit_two(errs, disk, "wsedit: words not understood\n", usage_text())
            }
            Status::Ran(end) => tell_end(end, errs, disk),
        }
    }
}
