// Journals that are read.
use crate::store::{ELEMENTS, JOURNAL, bytes, path, with_areas, with_journal};
use std::alloc::Global;
use std::test::Fail;
use wse_disk::Area;
use wse_path::RelPath;
use wse_quiet_disk::QuietDisk;
use wse_recover::{Unsettled, read_journal};

// Whether the journal is read, ends at this gate with one element, and its last record is settled or not.
fn reads(alloc: Global, journal: &[u8], gate: u64, settled: bool) -> bool {
    let mut disk = with_journal(alloc, journal);
    match read_journal(alloc, &mut disk) {
        Ok(journal) => journal.gate == gate
            && journal.last.is_none() == settled
            && journal.stacks.count() == 1,
        Err(_) => false,
    }
}

fn reads_with(alloc: Global, mark: u8, settled: bool) -> Result<bool, Fail> {
    let mut all = bytes(alloc, JOURNAL)?;
    if all.len() > 90 {
        all[90] = mark;
    }
    Ok(reads(alloc, &all, 91, settled))
}

#[test]
fn the_last_record_is_settled_or_not(rt: HostRuntime) -> Result<(), Fail> {
    let alloc = rt.alloc();
    assert!(rt; reads_with(alloc, 0x5A, true)?);
    assert!(rt; reads_with(alloc, 0, false)?);
    assert!(rt; reads_with(alloc, 0x13, false)?);
    Ok(())
}

#[test]
fn a_first_state_may_have_elements(rt: HostRuntime) -> Result<(), Fail> {
    let alloc = rt.alloc();
    assert!(rt; reads(alloc, &bytes(alloc, ELEMENTS)?, 81, true));
    Ok(())
}

// What the switch holds, and which log it chooses.
struct Row {
    switch: &'static [u8],
    area: Area,
}

const TABLE: [Row; 5] = [
    Row {
        switch: &[],
        area: Area::LogA,
    },
    Row {
        switch: &[0],
        area: Area::LogA,
    },
    Row {
        switch: &[1],
        area: Area::LogB,
    },
    Row {
        switch: &[6, 1],
        area: Area::LogA,
    },
    Row {
        switch: &[255, 0, 0],
        area: Area::LogB,
    },
];

fn is_chosen(alloc: Global, row: &Row, journal: &[u8]) -> bool {
    let mut disk: QuietDisk = with_areas(alloc, &[(Area::Switch, row.switch), (row.area, journal)]);
    match read_journal(alloc, &mut disk) {
        Ok(journal) => journal.area == row.area,
        Err(_) => false,
    }
}

fn each_is_chosen(alloc: Global) -> Result<bool, Fail> {
    let journal = bytes(alloc, JOURNAL)?;
    for row in &TABLE {
        if !is_chosen(alloc, row, &journal) {
            return Ok(false);
        }
    }
    Ok(true)
}

#[test]
fn the_first_byte_of_the_switch_chooses_the_journal(rt: HostRuntime) -> Result<(), Fail> {
    assert!(rt; each_is_chosen(rt.alloc())?);
    Ok(())
}

// A journal whose first state has one element, which made `a` and `b`. Its last record, which isn't settled, splits it, undoes
// the piece at `b`, and then closes the history of `b`.
const SPLIT: &str =
    "57 53 45 4c 4f 47 30 31 a5 00 00 00 56 00 00 00 00 00 00 00 00 01 00 00 00 00 00 00 00 02 \
    00 00 00 02 01 01 61 00 00 00 01 01 01 62 00 00 00 01 \
    00 00 00 01 00 00 00 00 00 00 00 01 00 00 00 00 00 00 00 01 00 00 03 \
    00 00 00 02 01 01 61 00 01 00 00 01 00 00 00 00 01 01 62 00 01 00 00 01 00 00 00 00 5a \
    a5 00 00 00 24 01 00 00 00 03 04 00 00 00 00 00 00 00 01 00 00 00 00 00 00 00 02 \
    02 00 00 00 00 00 00 00 03 05 01 01 62 01 00 00";

// Whether the record sets this path alone, so that it is present then, or absent.
fn is_one(last: &Unsettled, path: &RelPath, present: bool) -> bool {
    match last.sets.as_slice() {
        [set] => set.0.cmp(path).is_eq() && set.1.is_some() == present,
        _ => false,
    }
}

// Whether finishing the journal's last record does so.
fn sets_one(alloc: Global, journal: &[u8], name: &str, present: bool) -> Result<bool, Fail> {
    let mut disk = with_journal(alloc, journal);
    let path = path(alloc, name)?;
    Ok(match read_journal(alloc, &mut disk) {
        Ok(journal) => match &journal.last {
            Some(last) => is_one(last, &path, present),
            None => false,
        },
        Err(_) => false,
    })
}

#[test]
fn of_a_last_record_that_is_not_settled_is_known_what_it_sets(rt: HostRuntime) -> Result<(), Fail> {
    let alloc = rt.alloc();
    let mut made = bytes(alloc, JOURNAL)?;
    if made.len() > 90 {
        made[90] = 0;
    }
    assert!(rt; sets_one(alloc, &made, "a", true)?);
    assert!(rt; sets_one(alloc, &bytes(alloc, SPLIT)?, "b", false)?);
    Ok(())
}
