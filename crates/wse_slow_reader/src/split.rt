// The records of an area, as a list, and how they end.
ghost use Rattle.std.specs.Prelude.{◌≡◌, ◌≢◌, ◌≤◌, ◌<◌, ◌+◌, ◌^◌, [], length, IfOk};
ghost use Rattle.wse_log.specs.Grammar.{AreInOrder, BeginsWith, Reads, front};
ghost use Rattle.wse_slow_reader.specs.Split.{end_of, length_of};

use crate::piece::{Ending, Piece, first_piece, later_piece};
use crate::record::RawRecord;
use std::alloc::Global;
use wse_path::Memory;

/// The records of an area, in order, and how they end.
#[derive(Drop)]
pub(crate) struct Journal {
    pub(crate) records: Vec<RawRecord>,
    pub(crate) ending: Ending,
}

// The records of an area that begins with these, up to the gate at that place.
fn split_on(
    alloc: Global,
    area: &[u8],
    first: Vec<RawRecord>,
    place: usize,
) -> Result<Journal, Memory>
    requires some { first.items ≢ [] }
    requires order { AreInOrder first.items }
    requires begins { BeginsWith area.now first.items }
    requires gate { place ≡ length (front first.items) }
    requires room { place ≤ length area.now }
    ensures reads { IfOk result (λ journal. Reads area.now journal.records.items (end_of journal.ending)) }
    ensures room { IfOk result (λ journal. 8 + length_of journal.records.items < 2 ^ 64) }
{
    let mut records = first;
    let mut gate = place;
    loop {
        match later_piece(alloc, area, gate)? {
            Piece::Holds(next) => {
                gate += 6 + next.body().len();
                records.push(next)?;
            }
            Piece::Ends(ending) => return Ok(Journal { records, ending }),
        }
    }
}

/// The records of the area, up to a closed gate or the first place where it is no journal. This project's own format.
pub(crate) fn split(alloc: Global, area: &[u8]) -> Result<Journal, Memory>
    ensures reads { IfOk result (λ journal. Reads area.now journal.records.items (end_of journal.ending)) }
    ensures room { IfOk result (λ journal. 8 + length_of journal.records.items < 2 ^ 64) }
{
    let mut records = Vec::new(alloc);
    match first_piece(alloc, area)? {
        Piece::Holds(first) => {
            let place = 14 + first.body().len();
            records.push(first)?;
            split_on(alloc, area, records, place)
        }
        Piece::Ends(ending) => Ok(Journal { records, ending }),
    }
}
