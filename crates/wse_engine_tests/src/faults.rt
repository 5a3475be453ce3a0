// Disks that fail in the middle of a command.
use crate::given::{GATE, MAKING, path};
use crate::run::run;
use std::alloc::Global;
use std::test::Fail;
use wse_disk::{Area, Disk};

// Whether the command ends so where its call with that number fails.
fn ends(alloc: Global, commands: &str, number: u64, how: &str) -> Result<bool, Fail> {
    let fails = [MAKING.saturating_add(number)].to_vec(alloc)?;
    Ok(run(alloc, commands, fails)?.how == how)
}

fn each_fails(alloc: Global, commands: &str, first: u64, last: u64) -> Result<bool, Fail> {
    for number in first..=last {
        if !ends(alloc, commands, number, "disk")? {
            return Ok(false);
        }
    }
    ends(alloc, commands, last.saturating_add(1), "done")
}

#[test]
fn each_call_that_fails_is_a_fault_of_the_disk(rt: HostRuntime) -> Result<(), Fail> {
    let alloc = rt.alloc();
    assert!(rt; each_fails(alloc, "+a +b", 1, 9)?);
    assert!(rt; each_fails(alloc, "+a +b|undo a", 10, 18)?);
    assert!(rt; each_fails(alloc, "+a +b|undo a|redo a", 19, 27)?);
    assert!(rt; each_fails(alloc, "+a|forget a", 9, 14)?);
    Ok(())
}

// Whether, where the third call fails, the gate is closed behind the old record, and no file came.
fn is_as_before(alloc: Global) -> Result<bool, Fail> {
    let fails = [MAKING.saturating_add(3)].to_vec(alloc)?;
    let mut ended = run(alloc, "+a +b", fails)?;
    let gate = ended.disk.area(Area::LogA).get(GATE as usize);
    let closed = gate == Some(&0);
    let size = ended.disk.size(&path(alloc, "a")?)?;
    Ok(ended.how == "disk" && closed && size == None)
}

#[test]
fn where_the_gate_is_not_written_the_state_before_stands(rt: HostRuntime) -> Result<(), Fail> {
    assert!(rt; is_as_before(rt.alloc())?);
    Ok(())
}
