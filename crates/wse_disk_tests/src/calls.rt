// The record and the counts of a disk in memory.
use crate::script::{disk_after, has, marks, tree};
use std::alloc::Global;
use std::test::Fail;
use wse_disk::{Area, Call, Disk, MemDisk};

// The kinds of the calls, `!` behind those that failed.
fn kinds(alloc: Global, calls: &[Call]) -> Result<String, Fail> {
    let mut text = String::new(alloc);
    for call in calls {
        text.push_str(kind(call))?;
        text.push_str(if call.has_failed() { "!" } else { "" })?;
    }
    Ok(text)
}

fn kind(call: &Call) -> &str {
    match call {
        Call::Store {
            path: _,
            bytes: _,
            failed: _,
        } => "s",
        Call::Erase { path: _, failed: _ } => "e",
        Call::Patch {
            area: _,
            at: _,
            bytes: _,
            failed: _,
        } => "p",
        Call::Sync { failed: _ } => "y",
    }
}

// Whether, where the calls with these numbers fail, the record has these kinds, and so many faults are counted.
fn record_is(alloc: Global, fails: &[u64], wanted: &str, faults: u64) -> Result<bool, Fail> {
    let disk = disk_after(alloc, fails, "store:a:x patch:0:123 erase:b size:a sync")?;
    let same = kinds(alloc, disk.calls())?.as_str() == wanted;
    Ok(same && disk.faults() == faults && disk.starved() == 0 && disk.moment() == 4)
}

#[test]
fn record_has_the_calls_that_change(rt: HostRuntime) -> Result<(), Fail> {
    assert!(rt; record_is(rt.alloc(), &[], "spey", 0)?);
    assert!(rt; record_is(rt.alloc(), &[1, 3], "s!pe!y", 2)?);
    assert!(rt; record_is(rt.alloc(), &[2, 5], "sp!ey!", 2)?);
    assert!(rt; record_is(rt.alloc(), &[4], "spey", 1)?);
    Ok(())
}

// Whether what is read of the area is this.
fn reads(disk: &mut MemDisk, at: u64, wanted: &str) -> bool {
    let mut bytes = [0u8; 2];
    if at > 4 || disk.area(Area::LogA).len() < 6 {
        return false;
    }
    disk.area_read(Area::LogA, at, &mut bytes).is_ok() && bytes.as_slice() == wanted.as_bytes()
}

fn has_len(disk: &mut MemDisk, area: Area, len: u64) -> bool {
    disk.area_len(area) == Ok(len)
}

fn reads_what_was_written(alloc: Global) -> Result<bool, Fail> {
    let mut disk = disk_after(alloc, &[], "patch:0:abc patch:2:wxyz")?;
    Ok(
        has_len(&mut disk, Area::LogA, 6)
            && has_len(&mut disk, Area::Switch, 0)
            && reads(&mut disk, 1, "bw")
            && reads(&mut disk, 4, "yz"),
    )
}

#[test]
fn areas_have_what_was_written(rt: HostRuntime) -> Result<(), Fail> {
    assert!(rt; reads_what_was_written(rt.alloc())?);
    Ok(())
}

fn failed_calls_stay(alloc: Global) -> Result<bool, Fail> {
    let mut disk = MemDisk::new(alloc, tree(alloc, "b", "B")?, [1, 2, 3].to_vec(alloc)?);
    let marks = marks(alloc, &mut disk, "store:b:x erase:b patch:0:123")?;
    let empty = disk.area(Area::LogA).is_empty();
    Ok(marks.as_str() == "!!!" && empty && has(alloc, &mut disk, "b", "B")?)
}

#[test]
fn calls_that_fail_leave_what_is_read(rt: HostRuntime) -> Result<(), Fail> {
    assert!(rt; failed_calls_stay(rt.alloc())?);
    Ok(())
}
