// What each image of each moment of one command stands for.
use crate::command::run;
use crate::store::image_of;
use crate::told::told;
use std::alloc::Global;
use std::test::Fail;
use wse_disk::MemDisk;

/// The state before the command.
const OLD: &str = "k:1 / 1 0";

/// And the one behind it.
const NEW: &str = "a:0 k:1 / a1 / 1 / 2 1";

// What the image of the moment with that choice stands for.
fn told_at(alloc: Global, disk: &MemDisk, moment: u64, choice: u64) -> Result<String, Fail> {
    if moment > disk.calls().len() as u64 {
        return Err(Fail::new("no moment"));
    }
    let image = image_of(alloc, disk.image_at(moment, choice)?)?;
    told(alloc, &image)
}

// Whether each choice from 0 to 7 stands for one of these states.
fn stands_for(
    alloc: Global,
    disk: &MemDisk,
    moment: u64,
    first: &str,
    second: &str,
) -> Result<bool, Fail> {
    for choice in 0..8 {
        let told = told_at(alloc, disk, moment, choice)?;
        if told.as_str() != first && told.as_str() != second {
            return Ok(false);
        }
    }
    Ok(true)
}

// Whether each moment from one on stands for one of these states.
fn all_stand_for(
    alloc: Global,
    disk: &MemDisk,
    start: u64,
    first: &str,
    second: &str,
) -> Result<bool, Fail> {
    let end = disk.calls().len() as u64;
    for moment in start..=end {
        if !stands_for(alloc, disk, moment, first, second)? {
            return Ok(false);
        }
    }
    Ok(start <= end)
}

#[test]
fn each_moment_stands_for_the_old_or_the_new_state(rt: HostRuntime) -> Result<(), Fail> {
    let alloc = rt.alloc();
    let disk = run(alloc, Vec::new(alloc))?;
    assert!(rt; all_stand_for(alloc, &disk, 2, OLD, NEW)?);
    assert!(rt; stands_for(alloc, &disk, 2, OLD, OLD)?);
    Ok(())
}

// The sixth call is the sync behind the gate.
#[test]
fn behind_the_gate_the_new_state_alone(rt: HostRuntime) -> Result<(), Fail> {
    let alloc = rt.alloc();
    let disk = run(alloc, Vec::new(alloc))?;
    assert!(rt; all_stand_for(alloc, &disk, 6, NEW, NEW)?);
    Ok(())
}

// Whether it is so where the call with that number fails, and where each from one number to another does.
fn fails_well(alloc: Global, number: u64) -> Result<bool, Fail> {
    let disk = run(alloc, [number].to_vec(alloc)?)?;
    all_stand_for(alloc, &disk, 2, OLD, NEW)
}

fn each_fails_well(alloc: Global, first: u64, last: u64) -> Result<bool, Fail> {
    for number in first..=last {
        if !fails_well(alloc, number)? {
            return Ok(false);
        }
    }
    Ok(true)
}

#[test]
fn where_a_call_fails_the_old_or_the_new_state(rt: HostRuntime) -> Result<(), Fail> {
    assert!(rt; each_fails_well(rt.alloc(), 3, 12)?);
    Ok(())
}
