// How a run over a store ends.
ghost use Rattle.std.specs.Prelude.{◌≡◌};
ghost use Rattle.wse_run.specs.End.{end_of_served};

use wse_path::{Hit, RelPath};
use wse_server::ServeEnd;

/// How a run over a store ended.
#[derive(Drop)]
pub enum RunEnd {
    /// The source was read to its end, and every line was answered.
    Done,
    /// The source failed.
    Read,
    /// The sink failed.
    Write,
    /// The disk failed.
    Disk,
    /// There was no memory.
    Memory,
    /// The chosen journal is none of a store: the first place, in bytes, at which it isn't one. No line is read.
    NotAStore { at: u64 },
    /// The tree passes this limit, or adopting would. No line is read.
    TooBig(Hit),
    /// The source gave one byte past this limit.
    InputLimit { limit: u64 },
    /// The first file that is in the way of an unsettled record; or the first path that isn't as the elements say. No line is
    /// read.
    Differs(RelPath),
}

/// The end of serving as the end of the run, where at most so many bytes are read as lines.
pub(crate) fn end_of_served(limit: u64, end: ServeEnd) -> RunEnd
    ensures { result ≡ end_of_served limit end }
{
    match end {
        ServeEnd::Done => RunEnd::Done,
        ServeEnd::Read => RunEnd::Read,
        ServeEnd::Write => RunEnd::Write,
        ServeEnd::Disk => RunEnd::Disk,
        ServeEnd::Memory => RunEnd::Memory,
        ServeEnd::InputLimit { taken: _ } => RunEnd::InputLimit { limit },
    }
}
