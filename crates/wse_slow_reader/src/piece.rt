// One piece of a journal.
ghost use Rattle.std.specs.Prelude.{◌≡◌, ◌≢◌, ◌<◌, ◌++◌, [], List, ℕ, length, IfOk};
ghost use Rattle.wse_log.specs.Grammar.{JournalRecord, BeginsWith, header, front};
ghost use Rattle.wse_slow_reader.specs.declared.piece.Ending.TheVariants.{Broken};
ghost use Rattle.wse_slow_reader.specs.declared.piece.Piece.TheVariants.{Ends};
ghost use Rattle.wse_slow_reader.specs.Split.{IsPieceBehind, HasRoom};

use crate::header::header_fault;
use crate::record::{RawRecord, record_behind};
use std::alloc::Global;
use wse_path::Memory;

// A gate is open only as this byte.
const OPEN_GATE: u8 = 0xA5;

// A record is settled only with this byte behind its body.
const SETTLED: u8 = 0x5A;

/// How the records end: at a closed gate, or at the first place where the area is no journal.
#[derive(Clone, Copy)]
pub(crate) enum Ending {
    Closed { gate: usize },
    Broken { at: usize },
}

/// What stands behind some records: one more, or their end.
#[derive(Drop)]
pub(crate) enum Piece {
    Holds(RawRecord),
    Ends(Ending),
}

fn broken(at: usize) -> Piece
    ensures { result ≡ Ends (Broken at) }
{
    Piece::Ends(Ending::Broken { at })
}

// The first record of an area that begins with the header.
fn piece_behind_header(alloc: Global, area: &[u8]) -> Result<Piece, Memory>
    requires { (rest : List ℕ) × (area.now ≡ header ++ rest) }
    ensures piece { IfOk result (IsPieceBehind area.now []) }
    ensures room { IfOk result (HasRoom area.now 8) }
{
    if area.len() <= 8 {
        return Ok(broken(8));
    }
    if area[8] != OPEN_GATE {
        return Ok(broken(8));
    }
    match record_behind(alloc, area, 8)? {
        None => Ok(broken(8)),
        Some(first) => {
            if !first.is_settled() {
                return Ok(broken(13 + first.body().len()));
            }
            Ok(Piece::Holds(first))
        }
    }
}

/// What an area begins with.
pub(crate) fn first_piece(alloc: Global, area: &[u8]) -> Result<Piece, Memory>
    ensures piece { IfOk result (IsPieceBehind area.now []) }
    ensures room { IfOk result (HasRoom area.now 8) }
{
    match header_fault(area) {
        Some(at) => Ok(broken(at)),
        None => piece_behind_header(alloc, area),
    }
}

/// What stands behind the records up to the gate at that place.
pub(crate) fn later_piece(alloc: Global, area: &[u8], gate: usize) -> Result<Piece, Memory>
    requires { 0 < gate }
    ensures piece { IfOk result (λ piece. (before : List JournalRecord) → BeginsWith area.now before → before ≢ [] → gate ≡ length (front before)
        → IsPieceBehind area.now before piece) }
    ensures room { IfOk result (HasRoom area.now gate) }
{
    if area.len() <= gate {
        return Ok(broken(gate));
    }
    if area[gate] != OPEN_GATE {
        return Ok(Piece::Ends(Ending::Closed { gate }));
    }
    if area[gate - 1] != SETTLED {
        return Ok(broken(gate - 1));
    }
    match record_behind(alloc, area, gate)? {
        Some(next) => Ok(Piece::Holds(next)),
        None => Ok(broken(gate)),
    }
}
