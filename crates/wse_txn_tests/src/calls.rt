// The calls that a record takes, and the bytes that it leaves.
use crate::journal::{LONGER, bytes};
use crate::run::run;
use std::alloc::Global;
use std::test::Fail;
use wse_disk::{Area, Call};
use wse_path::RelPath;

fn name_of(path: &RelPath) -> &str {
    path.segment(0).unwrap_or("?")
}

fn write_call(text: &mut String, call: &Call) -> Result<(), Fail> {
    match call {
        Call::Store {
            path,
            bytes: _,
            failed: _,
        } => write!(text, " +{}", name_of(path))?,
        Call::Erase { path, failed: _ } => write!(text, " -{}", name_of(path))?,
        Call::Patch {
            area: _,
            at,
            bytes,
            failed: _,
        } => write!(text, " {at}:{}", bytes.len())?,
        Call::Sync { failed: _ } => text.push_str(" sync")?,
    }
    Ok(())
}

// The calls for these changes, but for the two that make the disk.
fn calls(alloc: Global, words: &str) -> Result<String, Fail> {
    let ended = run(alloc, words, Vec::new(alloc))?;
    let mut text = String::from_str(alloc, ended.step)?;
    for call in ended.disk.calls().iter().skip(2) {
        write_call(&mut text, call)?;
    }
    Ok(text)
}

fn is_longer(alloc: Global) -> Result<bool, Fail> {
    let ended = run(alloc, "a=x b=y", Vec::new(alloc))?;
    let wanted = bytes(alloc, LONGER)?;
    Ok(ended.disk.area(Area::LogA) == wanted.as_slice())
}

#[test]
fn a_record_takes_these_calls(rt: HostRuntime) -> Result<(), Fail> {
    let alloc = rt.alloc();
    let stores = calls(alloc, "a=x b=y")?;
    assert!(rt; stores.as_str() == "done 40:52 sync 39:1 sync +a +b sync 90:1 sync");
    let mixed = calls(alloc, "a=x b=y c")?;
    assert!(rt; mixed.as_str() == "done 40:52 sync 39:1 sync -c sync +a +b sync 90:1 sync");
    Ok(())
}

#[test]
fn the_journal_is_longer_by_the_record(rt: HostRuntime) -> Result<(), Fail> {
    assert!(rt; is_longer(rt.alloc())?);
    Ok(())
}
