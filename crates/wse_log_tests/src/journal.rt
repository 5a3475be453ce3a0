// The worked journal, and what scans of a journal give.
use crate::area::OneArea;
use std::alloc::Global;
use std::test::Fail;
use wse_disk::Area;
use wse_log::{ScanFault, Step, scan};

/// A journal of two records, worked by hand: the state of a store over an empty tree, and the making of a file `a`.
pub const JOURNAL: [u8; 92] = [
    0x57, 0x53, 0x45, 0x4c, 0x4f, 0x47, 0x30, 0x31, // the header
    0xa5, 0x00, 0x00, 0x00, 0x19, // the first gate, and 25 bytes
    0x00, // a state
    0x00, 0x00, 0x00, 0x00, 0x00, 0x00, 0x00, 0x00, // its serial
    0x00, 0x00, 0x00, 0x00, 0x00, 0x00, 0x00, 0x01, // its next id
    0x00, 0x00, 0x00, 0x00, 0x00, 0x00, 0x00, 0x00, // no versions, no elements
    0x5a, // settled
    0xa5, 0x00, 0x00, 0x00, 0x2e, // the second gate, and 46 bytes
    0x01, 0x00, 0x00, 0x00, 0x02, // a record of two effects
    0x01, // an element comes
    0x00, 0x00, 0x00, 0x00, 0x00, 0x00, 0x00, 0x01, // its id
    0x00, 0x00, 0x00, 0x00, 0x00, 0x00, 0x00, 0x01, // its origin
    0x00, 0x00, 0x02, 0x00, 0x00, 0x00, 0x01, // no label, done, one part
    0x01, 0x01, 0x61, 0x00, 0x01, 0x00, // `a`, live, valid
    0x00, 0x01, 0x00, 0x00, 0x00, 0x00, // absent before, and then empty
    0x07, 0x01, 0x01, 0x61, 0x01, // the version of `a` rises by one
    0x5a, 0x00, // settled, and the closed gate
];

/// What one piece is: of a record the number of its bytes, the gate, whether it is settled, and the next gate.
#[derive(Debug, Clone, Copy, PartialEq, Eq)]
pub enum Piece {
    Record(u64, u64, bool, u64),
    End(u64),
    NotALog(u64),
    Disk,
    Memory,
}

/// What a scan at that place gives.
pub fn piece_at(alloc: Global, disk: &mut OneArea, at: u64) -> Piece {
    match scan(alloc, disk, Area::LogA, at) {
        Ok(
            Step::Entry {
                body,
                gate,
                settled,
                next,
            },
        ) => Piece::Record(body.len() as u64, gate, settled, next),
        Ok(Step::End { gate }) => Piece::End(gate),
        Err(ScanFault::NotALog { at }) => Piece::NotALog(at),
        Err(ScanFault::Disk) => Piece::Disk,
        Err(ScanFault::Memory) => Piece::Memory,
    }
}

/// What scans give, from 0 and then from each next gate.
pub fn pieces(alloc: Global, bytes: Vec<u8>) -> Result<Vec<Piece>, Fail> {
    let mut disk = OneArea::new(bytes, 0);
    let mut all = Vec::new(alloc);
    let mut at = 0;
    for _ in 0..100 {
        let piece = piece_at(alloc, &mut disk, at);
        all.push(piece)?;
        match piece {
            Piece::Record(_, _, _, next) => at = next,
            _ => return Ok(all),
        }
    }
    Ok(all)
}

/// The first bytes of the journal.
pub fn cut(alloc: Global, count: usize) -> Result<Vec<u8>, Fail> {
    let mut bytes = JOURNAL.to_vec(alloc)?;
    bytes.truncate(count);
    Ok(bytes)
}

/// The journal with another byte at that place.
pub fn changed(alloc: Global, place: usize, byte: u8) -> Result<Vec<u8>, Fail> {
    let mut bytes = JOURNAL.to_vec(alloc)?;
    if let Some(old) = bytes.get_mut(place) {
        *old = byte;
    }
    Ok(bytes)
}
