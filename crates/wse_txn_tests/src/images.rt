// What a crash leaves at each moment of a record.
use crate::journal::path;
use crate::quiet::Quiet;
use crate::run::run;
use std::alloc::Global;
use std::test::Fail;
use wse_disk::{Area, Disk, MemDisk};
use wse_log::{Step, scan};

// How many records the journal has, and whether the last one is settled; none where the area is no journal.
fn records(alloc: Global, disk: &mut Quiet) -> (u64, bool) {
    let mut at = 0;
    let mut last = false;
    for count in 0..10 {
        match scan(alloc, disk, Area::LogA, at) {
            Ok(
                Step::Entry {
                    body: _,
                    gate: _,
                    settled,
                    next,
                },
            ) => {
                at = next;
                last = settled;
            }
            Ok(Step::End { gate: _ }) => return (count, last),
            Err(_) => return (0, false),
        }
    }
    (0, false)
}

// `old` for the one settled record, `open` for a second one behind it that isn't settled, `closed` where that is settled.
fn journal(alloc: Global, image: MemDisk) -> &'static str {
    let mut disk = Quiet {
        disk: image,
        faults: 0,
    };
    match records(alloc, &mut disk) {
        (1, true) => "old",
        (2, false) => "open",
        (2, true) => "closed",
        _ => "none",
    }
}

// Whether the file has this content; `-` for none.
fn has(alloc: Global, disk: &mut MemDisk, name: &str, content: &str) -> Result<bool, Fail> {
    let mut bytes = Vec::new(alloc);
    let found = disk.load(alloc, &path(alloc, name)?, &mut bytes)?;
    if content == "-" {
        return Ok(!found);
    }
    Ok(found && bytes.as_slice() == content.as_bytes())
}

// Whether each file that is named has what stands behind its `=`.
fn has_all(alloc: Global, disk: &mut MemDisk, files: &str) -> Result<bool, Fail> {
    for file in files.split(' ') {
        let (name, content) = file.split_once('=').unwrap_or((file, "-"));
        if !has(alloc, disk, name, content)? {
            return Ok(false);
        }
    }
    Ok(true)
}

// Whether the image of the moment with that choice has one of these journals, and these files.
fn is_of(
    alloc: Global,
    disk: &MemDisk,
    moment: u64,
    choice: u64,
    row: (&str, &str),
) -> Result<bool, Fail> {
    if moment > disk.calls().len() as u64 {
        return Ok(false);
    }
    let (journals, files) = row;
    let mut image = disk.image_at(moment, choice)?;
    let same = has_all(alloc, &mut image, files)?;
    Ok(same && journals.contains(journal(alloc, image)))
}

/// Whether it is so with each choice from 0 to 7.
pub fn all_of(alloc: Global, disk: &MemDisk, moment: u64, row: (&str, &str)) -> Result<bool, Fail> {
    for choice in 0..8 {
        if !is_of(alloc, disk, moment, choice, row)? {
            return Ok(false);
        }
    }
    Ok(true)
}

/// What `seal`, `settle` or `close` may leave, where `a` and `b` are stored and `c` is erased.
pub fn row_of(step: &str) -> (&'static str, &'static str) {
    match step {
        "seal" => ("old open", "a=- b=- c=c k=k"),
        "settle" => ("open", "k=k"),
        _ => ("open closed", "a=x b=y c=- k=k"),
    }
}

// Whether each image from one moment to another has one of these journals, and these files.
fn are_of(alloc: Global, first: u64, last: u64, row: (&str, &str)) -> Result<bool, Fail> {
    let ended = run(alloc, "a=x b=y c", Vec::new(alloc))?;
    for moment in first..=last {
        if !all_of(alloc, &ended.disk, moment, row)? {
            return Ok(false);
        }
    }
    Ok(true)
}

#[test]
fn images_of_each_call_are_of_its_row(rt: HostRuntime) -> Result<(), Fail> {
    let alloc = rt.alloc();
    assert!(rt; are_of(alloc, 2, 6, row_of("seal"))?);
    assert!(rt; are_of(alloc, 6, 11, row_of("settle"))?);
    assert!(rt; are_of(alloc, 11, 13, row_of("close"))?);
    Ok(())
}

#[test]
fn between_the_calls_one_image_is_left(rt: HostRuntime) -> Result<(), Fail> {
    let alloc = rt.alloc();
    assert!(rt; are_of(alloc, 2, 2, ("old", "a=- b=- c=c k=k"))?);
    assert!(rt; are_of(alloc, 6, 6, ("open", "a=- b=- c=c k=k"))?);
    assert!(rt; are_of(alloc, 11, 11, ("open", "a=x b=y c=- k=k"))?);
    assert!(rt; are_of(alloc, 13, 13, ("closed", "a=x b=y c=- k=k"))?);
    Ok(())
}
