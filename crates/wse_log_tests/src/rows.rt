// The worked journal, by hand.
use crate::area::OneArea;
use crate::journal::{JOURNAL, Piece, changed, cut, piece_at};
use std::alloc::Global;
use std::test::Fail;
use wse_disk::Area;
use wse_log::{Step, scan};

fn gives(alloc: Global, bytes: Vec<u8>, at: u64, piece: Piece) -> bool {
    let mut disk = OneArea::new(bytes, 0);
    piece_at(alloc, &mut disk, at) == piece
}

fn whole_gives(alloc: Global, at: u64, piece: Piece) -> Result<bool, Fail> {
    Ok(gives(alloc, cut(alloc, 92)?, at, piece))
}

fn is_no_log_when_cut(alloc: Global, count: usize, at: u64, place: u64) -> Result<bool, Fail> {
    Ok(gives(alloc, cut(alloc, count)?, at, Piece::NotALog(place)))
}

fn is_no_log_with_zero(alloc: Global, zeroed: usize, at: u64, place: u64) -> Result<bool, Fail> {
    Ok(gives(alloc, changed(alloc, zeroed, 0)?, at, Piece::NotALog(place)))
}

#[test]
fn the_worked_journal_has_two_records(rt: HostRuntime) -> Result<(), Fail> {
    let alloc = rt.alloc();
    assert!(rt; whole_gives(alloc, 0, Piece::Record(25, 8, true, 39))?);
    assert!(rt; whole_gives(alloc, 39, Piece::Record(46, 39, true, 91))?);
    assert!(rt; whole_gives(alloc, 91, Piece::End(91))?);
    Ok(())
}

#[test]
fn a_cut_journal_breaks_at_what_is_missing(rt: HostRuntime) -> Result<(), Fail> {
    let alloc = rt.alloc();
    assert!(rt; is_no_log_when_cut(alloc, 60, 39, 39)?);
    assert!(rt; is_no_log_when_cut(alloc, 39, 39, 39)?);
    assert!(rt; is_no_log_when_cut(alloc, 5, 0, 5)?);
    Ok(())
}

#[test]
fn a_changed_byte_breaks_the_header_the_gate_or_the_mark(rt: HostRuntime) -> Result<(), Fail> {
    let alloc = rt.alloc();
    assert!(rt; is_no_log_with_zero(alloc, 3, 0, 3)?);
    assert!(rt; is_no_log_with_zero(alloc, 8, 0, 8)?);
    assert!(rt; is_no_log_with_zero(alloc, 38, 0, 38)?);
    assert!(rt; is_no_log_with_zero(alloc, 38, 39, 38)?);
    Ok(())
}

fn last_may_be_unsettled(alloc: Global) -> Result<bool, Fail> {
    let bytes = changed(alloc, 90, 0)?;
    let mut disk = OneArea::new(bytes, 0);
    let last = piece_at(alloc, &mut disk, 39) == Piece::Record(46, 39, false, 91);
    Ok(last && piece_at(alloc, &mut disk, 91) == Piece::End(91))
}

/// The bodies that scans give are those of the journal.
fn has_body(alloc: Global, at: u64, is: &[u8]) -> Result<bool, Fail> {
    let mut disk = OneArea::new(cut(alloc, 92)?, 0);
    match scan(alloc, &mut disk, Area::LogA, at) {
        Ok(Step::Entry { body, .. }) => Ok(body.as_slice() == is),
        _ => Ok(false),
    }
}

#[test]
fn the_last_record_may_be_unsettled(rt: HostRuntime) -> Result<(), Fail> {
    let alloc = rt.alloc();
    assert!(rt; last_may_be_unsettled(alloc)?);
    Ok(())
}

#[test]
fn bodies_are_whole(rt: HostRuntime) -> Result<(), Fail> {
    let alloc = rt.alloc();
    assert!(rt; has_body(alloc, 0, &JOURNAL[13..38])?);
    assert!(rt; has_body(alloc, 39, &JOURNAL[44..90])?);
    Ok(())
}
