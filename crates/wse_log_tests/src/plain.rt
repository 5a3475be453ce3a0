// A plain reading of what a journal is, front to back, over a slice.
use crate::journal::Piece;
use std::alloc::Global;
use std::test::Fail;

const HEADER: &[u8] = b"WSELOG01";

fn place_of(bytes: &[u8], rest: &[u8]) -> u64 {
    bytes.len().saturating_sub(rest.len()) as u64
}

fn number(field: &[u8]) -> u64 {
    let mut number: u64 = 0;
    for byte in field {
        number = number.saturating_mul(256).saturating_add(u64::from(*byte));
    }
    number
}

/// The piece at the gate with which `rest` begins, and what is left behind the piece. `before` is the byte in front of a
/// later gate.
fn piece<'a>(bytes: &'a [u8], rest: &'a [u8], before: Option<u8>) -> (Piece, &'a [u8]) {
    let gate = place_of(bytes, rest);
    let Some((open, behind)) = rest.split_first() else {
        return (Piece::NotALog(gate), rest);
    };
    if *open != 0xa5 {
        return match before {
            Some(_) => (Piece::End(gate), behind),
            None => (Piece::NotALog(gate), behind),
        };
    }
    match before {
        Some(mark) if mark != 0x5a => (Piece::NotALog(gate.saturating_sub(1)), behind),
        _ => record(bytes, behind, gate, before.is_none()),
    }
}

fn record<'a>(bytes: &'a [u8], behind: &'a [u8], gate: u64, is_first: bool) -> (Piece, &'a [u8]) {
    let Some((field, body)) = behind.split_at_checked(4) else {
        return (Piece::NotALog(gate), behind);
    };
    let count = number(field);
    let Some((mark, rest)) = body
        .get(count as usize..)
        .and_then(|marked| marked.split_first())
    else {
        return (Piece::NotALog(gate), behind);
    };
    let next = place_of(bytes, rest);
    if is_first && *mark != 0x5a {
        return (Piece::NotALog(next.saturating_sub(1)), rest);
    }
    (Piece::Record(count, gate, *mark == 0x5a, next), rest)
}

fn header_fault(bytes: &[u8]) -> Option<u64> {
    for (place, byte) in HEADER.iter().enumerate() {
        if bytes.get(place) != Some(byte) {
            return Some(place as u64);
        }
    }
    None
}

/// What scans are to give, from 0 on.
pub fn pieces_plainly(alloc: Global, bytes: &[u8]) -> Result<Vec<Piece>, Fail> {
    let mut all = Vec::new(alloc);
    if let Some(place) = header_fault(bytes) {
        all.push(Piece::NotALog(place))?;
        return Ok(all);
    }
    let mut rest = bytes.get(8..).unwrap_or(&[]);
    let mut before = None;
    for _ in 0..100 {
        let (piece, left) = piece(bytes, rest, before);
        all.push(piece)?;
        match piece {
            Piece::Record(_, _, settled, _) => before = Some(if settled { 0x5a } else { 0 }),
            _ => return Ok(all),
        }
        rest = left;
    }
    Ok(all)
}
