// The calls of the disk that commands take.
use crate::given::MAKING;
use crate::run::run;
use std::alloc::Global;
use std::test::Fail;
use wse_disk::Call;
use wse_path::RelPath;

fn name_of(path: &RelPath) -> &str {
    path.segment(0).unwrap_or("?")
}

fn write_call(text: &mut String, call: &Call) -> Result<(), Fail> {
    match call {
        Call::Store {
            path,
            bytes: _,
            failed: _,
        } => write!(text, " +{}", name_of(path))?,
        Call::Erase { path, failed: _ } => write!(text, " -{}", name_of(path))?,
        Call::Patch {
            area: _,
            at,
            bytes,
            failed: _,
        } => write!(text, " {at}:{}", bytes.len())?,
        Call::Sync { failed: _ } => text.push_str(" sync")?,
    }
    Ok(())
}

// The calls for these commands, but for those that make the disk.
fn calls(alloc: Global, commands: &str) -> Result<String, Fail> {
    let ended = run(alloc, commands, Vec::new(alloc))?;
    let mut text = String::from_str(alloc, ended.how)?;
    for call in ended.disk.calls().iter().skip(MAKING as usize) {
        write_call(&mut text, call)?;
    }
    Ok(text)
}

fn count(alloc: Global, commands: &str) -> Result<u64, Fail> {
    let ended = run(alloc, commands, Vec::new(alloc))?;
    if ended.how != "done" {
        return Err(Fail::new(ended.how));
    }
    Ok((ended.disk.calls().len() as u64).saturating_sub(MAKING))
}

#[test]
fn an_edit_of_two_files_takes_nine_calls(rt: HostRuntime) -> Result<(), Fail> {
    let text = calls(rt.alloc(), "+a +b")?;
    assert!(rt; text.as_str() == "done 40:69 sync 39:1 sync +a +b sync 107:1 sync");
    Ok(())
}

#[test]
fn a_command_that_records_nothing_makes_no_call(rt: HostRuntime) -> Result<(), Fail> {
    let alloc = rt.alloc();
    assert!(rt; calls(alloc, "lock a")?.as_str() == "done");
    assert!(rt; calls(alloc, "look a")?.as_str() == "done");
    assert!(rt; calls(alloc, "undo a")?.as_str() == "done");
    assert!(rt; calls(alloc, "-a")?.as_str() == "done");
    Ok(())
}

#[test]
fn undo_and_redo_take_the_calls_of_an_edit(rt: HostRuntime) -> Result<(), Fail> {
    let alloc = rt.alloc();
    assert!(rt; count(alloc, "+a +b|undo a")? == 18);
    assert!(rt; count(alloc, "+a +b|undo a|redo b")? == 27);
    assert!(rt; count(alloc, "+a|forget a")? == 14);
    Ok(())
}
