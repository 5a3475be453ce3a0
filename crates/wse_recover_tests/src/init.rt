// Stores that are made.
use crate::store::{bytes, empty, with_files};
use std::alloc::Global;
use std::test::Fail;
use wse_apply::are_within_standard;
use wse_disk::{Area, Disk};
use wse_path::{Limits, Which};
use wse_quiet_disk::QuietDisk;
use wse_recover::{InitFault, init_store};

// How the making of a store ends.
#[derive(Drop, PartialEq, Eq)]
enum Ended {
    Made,
    Disk,
    TooBig(Which, u64),
    Memory,
}

fn make_over(alloc: Global, disk: QuietDisk, limits: &Limits) -> Result<(QuietDisk, Ended), Fail> {
    if !are_within_standard(limits) {
        return Err(Fail::new("limits"));
    }
    Ok(match init_store(alloc, disk, limits) {
        Ok(disk) => (disk, Ended::Made),
        Err(InitFault::Disk(disk)) => (disk, Ended::Disk),
        Err(InitFault::TooBig { disk, which, found }) => (disk, Ended::TooBig(which, found)),
        Err(InitFault::Memory(disk)) => (disk, Ended::Memory),
    })
}

// Whether a store over the disk is made so that the first log begins with these bytes, and the switch is a zero.
fn makes(alloc: Global, disk: QuietDisk, log: &str) -> Result<bool, Fail> {
    let made = make_over(alloc, disk, &Limits::standard())?;
    let log = bytes(alloc, log)?;
    let written = made.0.disk.area(Area::LogA).starts_with(&log);
    Ok(made.1 == Ended::Made && written && made.0.disk.area(Area::Switch) == [0].as_slice())
}

#[test]
fn a_store_over_an_empty_tree_begins_with_forty_bytes(rt: HostRuntime) -> Result<(), Fail> {
    let alloc = rt.alloc();
    let log =
        "57 53 45 4c 4f 47 30 31 a5 00 00 00 19 00 00 00 00 00 00 00 00 00 00 00 00 00 00 00 00 01 \
        00 00 00 00 00 00 00 00 5a 00";
    assert!(rt; makes(alloc, empty(alloc, Vec::new(alloc)), log)?);
    Ok(())
}

#[test]
fn each_file_has_the_version_one(rt: HostRuntime) -> Result<(), Fail> {
    let alloc = rt.alloc();
    let log =
        "57 53 45 4c 4f 47 30 31 a5 00 00 00 27 00 00 00 00 00 00 00 00 00 00 00 00 00 00 00 00 01 \
        00 00 00 02 01 01 61 00 00 00 01 01 01 62 00 00 00 01 00 00 00 00 5a 00";
    assert!(rt; makes(alloc, with_files(alloc, "b a")?, log)?);
    Ok(())
}

fn dirty(alloc: Global) -> QuietDisk {
    let mut disk = empty(alloc, Vec::new(alloc));
    let _ = disk.area_write(Area::LogA, 0, &[7; 60]);
    let _ = disk.area_write(Area::Switch, 0, &[1]);
    disk
}

#[test]
fn whatever_the_areas_hold_the_store_is_made_anew(rt: HostRuntime) -> Result<(), Fail> {
    let alloc = rt.alloc();
    let log =
        "57 53 45 4c 4f 47 30 31 a5 00 00 00 19 00 00 00 00 00 00 00 00 00 00 00 00 00 00 00 00 01 \
        00 00 00 00 00 00 00 00 5a 00 07 07";
    assert!(rt; makes(alloc, dirty(alloc), log)?);
    Ok(())
}

// Whether the tree with files `a`, `bb` and `cc` is too big so, and nothing is written.
fn is_too_big(alloc: Global, limits: &Limits, which: Which, found: u64) -> Result<bool, Fail> {
    let refused = make_over(alloc, with_files(alloc, "a bb cc")?, limits)?;
    Ok(refused.1 == Ended::TooBig(which, found) && refused.0.disk.area(Area::LogA).is_empty())
}

#[test]
fn a_tree_is_too_big_by_files_then_bytes_of_a_file_then_of_all(
    rt: HostRuntime,
) -> Result<(), Fail> {
    let alloc = rt.alloc();
    let mut limits = Limits::standard();
    limits.tree_bytes = 4;
    assert!(rt; is_too_big(alloc, &limits, Which::TreeBytes, 5)?);
    limits.file_bytes = 1;
    assert!(rt; is_too_big(alloc, &limits, Which::FileBytes, 2)?);
    limits.files = 2;
    assert!(rt; is_too_big(alloc, &limits, Which::Files, 3)?);
    Ok(())
}

// Whether the making fails where the call with that number fails.
fn fails_at(alloc: Global, number: u64) -> Result<bool, Fail> {
    let disk = empty(alloc, [number].to_vec(alloc)?);
    Ok(make_over(alloc, disk, &Limits::standard())?.1 == Ended::Disk)
}

// A sync, the log, a sync, the switch, a sync.
fn each_call_may_fail(alloc: Global) -> Result<bool, Fail> {
    for number in 1..=5 {
        if !fails_at(alloc, number)? {
            return Ok(false);
        }
    }
    Ok(!fails_at(alloc, 7)?)
}

#[test]
fn the_making_fails_where_a_call_fails(rt: HostRuntime) -> Result<(), Fail> {
    assert!(rt; each_call_may_fail(rt.alloc())?);
    Ok(())
}
