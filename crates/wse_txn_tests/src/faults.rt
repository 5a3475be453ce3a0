// Disks that fail in the middle of a record.
use crate::images::{all_of, row_of};
use crate::run::run;
use std::alloc::Global;
use std::test::Fail;

// Whether, where the call with that number fails, this step is broken off, and each image since its start is of its row. The
// first two calls make the disk.
fn breaks(alloc: Global, number: u64, step: &str, start: u64) -> Result<bool, Fail> {
    let ended = run(alloc, "a=x b=y c", [number].to_vec(alloc)?)?;
    let now = ended.disk.calls().len() as u64;
    for moment in start..=now {
        if !all_of(alloc, &ended.disk, moment, row_of(step))? {
            return Ok(false);
        }
    }
    Ok(ended.step == step)
}

// Whether each call from one number to another breaks this step, which starts at that moment.
fn each_breaks(alloc: Global, first: u64, last: u64, step: &str, start: u64) -> Result<bool, Fail> {
    for number in first..=last {
        if !breaks(alloc, number, step, start)? {
            return Ok(false);
        }
    }
    Ok(true)
}

#[test]
fn a_fault_breaks_off_the_call_and_leaves_its_row(rt: HostRuntime) -> Result<(), Fail> {
    let alloc = rt.alloc();
    assert!(rt; each_breaks(alloc, 3, 6, "seal", 2)?);
    assert!(rt; each_breaks(alloc, 7, 11, "settle", 6)?);
    assert!(rt; each_breaks(alloc, 12, 13, "close", 11)?);
    Ok(())
}

fn is_done(alloc: Global) -> Result<bool, Fail> {
    let ended = run(alloc, "a=x b=y c", [14].to_vec(alloc)?)?;
    Ok(ended.step == "done" && ended.disk.faults() == 0)
}

#[test]
fn a_record_makes_eleven_calls(rt: HostRuntime) -> Result<(), Fail> {
    assert!(rt; is_done(rt.alloc())?);
    Ok(())
}
