// Disks that fail, and how often a scan reads.
use crate::area::OneArea;
use crate::journal::{Piece, cut, piece_at};
use std::alloc::Global;
use std::test::Fail;

/// Whether a scan at that place makes so many calls, and answers `Disk` whichever of them fails.
fn fails_at_each_read(alloc: Global, at: u64, reads: u64) -> Result<bool, Fail> {
    let mut disk = OneArea::new(cut(alloc, 92)?, 0);
    let piece = piece_at(alloc, &mut disk, at);
    if piece == Piece::Disk || disk.reads() != reads {
        return Ok(false);
    }
    for number in 1..=reads {
        let mut failing = OneArea::new(cut(alloc, 92)?, number);
        if piece_at(alloc, &mut failing, at) != Piece::Disk {
            return Ok(false);
        }
    }
    Ok(true)
}

#[test]
fn a_scan_reads_a_piece_in_few_calls_and_each_may_fail(rt: HostRuntime) -> Result<(), Fail> {
    let alloc = rt.alloc();
    // The length of the area, the header, the gate, the length of the body, the body, the mark.
    assert!(rt; fails_at_each_read(alloc, 0, 6)?);
    // In place of the header the mark of the record before.
    assert!(rt; fails_at_each_read(alloc, 39, 6)?);
    // The length of the area and the gate.
    assert!(rt; fails_at_each_read(alloc, 91, 2)?);
    Ok(())
}
