// What is done with a disk, and with a store that is open over one.
use crate::disks::{crashed, patch, put};
use crate::opening::{Answered, Left, Ran, answer, make, open, run};
use crate::plain::push_hex;
use crate::shown::{push_state, push_tree};
use crate::stage::{Stage, Store};
use crate::step::{Deed, Run};
use crate::told::push_end;
use std::alloc::Global;
use std::str;
use wse_disk::Area;
use wse_path::{Limits, Memory};
use wse_quiet_disk::QuietDisk;
use wse_run::RunEnd;

fn tell_end(alloc: Global, out: &mut String, name: &str, end: &RunEnd) -> Result<(), Memory> {
    write!(out, "{name}: ")?;
    push_end(alloc, out, end)?;
    out.push('\n')?;
    Ok(())
}

fn push_bytes(out: &mut String, bytes: &[u8]) -> Result<(), Memory> {
    match str::from_utf8(bytes) {
        Ok(text) => out.push_str(text)?,
        Err(_) => out.push_str("bytes that are no UTF-8\n")?,
    }
    Ok(())
}

// What the step left, which is told by its name.
fn told(alloc: Global, name: &str, left: Left, out: &mut String) -> Result<Stage, Memory> {
    let Left { stage, end } = left;
    tell_end(alloc, out, name, &end)?;
    Ok(stage)
}

fn serve(alloc: Global, store: Store, line: &[u8], out: &mut String) -> Result<Stage, Memory> {
    let Answered { stage, text } = answer(alloc, store, line);
    match text {
        Ok(text) => push_bytes(out, &text)?,
        Err(end) => tell_end(alloc, out, "stopped", &end)?,
    }
    Ok(stage)
}

fn serve_all(
    alloc: Global,
    disk: QuietDisk,
    limits: Limits,
    asked: Run,
    out: &mut String,
) -> Result<Stage, Memory> {
    let ran = run(alloc, disk, limits, asked)?;
    let Ran {
        disk,
        end,
        out: sink,
    } = ran;
    push_bytes(out, sink.bytes())?;
    tell_end(alloc, out, "run", &end)?;
    Ok(Stage::Stopped(disk))
}

fn tell_bytes(alloc: Global, disk: &QuietDisk, area: Area, out: &mut String) -> Result<(), Memory> {
    push_hex(alloc, out, disk.disk.area(area))?;
    out.push('\n')?;
    Ok(())
}

// The files that the disk holds. Reading them is no call of it.
fn tell_files(alloc: Global, disk: &QuietDisk, out: &mut String) -> Result<(), Memory> {
    let now = disk.disk.calls().len() as u64;
    match crashed(disk, now, 1)? {
        Some(copy) => push_tree(alloc, out, &copy.disk.into_tree()),
        None => Ok(()),
    }
}

fn tell_written(done: bool, out: &mut String) -> Result<(), Memory> {
    if !done {
        out.push_str("refused: it can't be written there\n")?;
    }
    Ok(())
}

fn write_on(disk: &mut QuietDisk, deed: &Deed) -> bool {
    match deed {
        Deed::Patch { area, at, bytes } => patch(disk, *area, *at, bytes),
        Deed::Put { path, content } => put(disk, path, content),
        _ => false,
    }
}

/// Does it over a store that is open.
pub fn on_store(
    alloc: Global,
    store: Store,
    deed: Deed,
    out: &mut String,
) -> Result<Stage, Memory> {
    match deed {
        Deed::Serve { line } => return serve(alloc, store, &line, out),
        Deed::Stop => return Ok(Stage::Stopped(store.into_disk())),
        Deed::Show => push_state(alloc, out, store.server.engine.history())?,
        Deed::Bytes { area } => tell_bytes(alloc, store.server.engine.disk(), area, out)?,
        _ => out.push_str("refused: the store is open\n")?,
    }
    Ok(Stage::Open(store))
}

/// Does it over a disk that no store is open over.
pub fn on_disk(
    alloc: Global,
    disk: QuietDisk,
    limits: Limits,
    deed: Deed,
    out: &mut String,
) -> Result<Stage, Memory> {
    let mut disk = disk;
    match deed {
        Deed::Init => return told(alloc, "init", make(alloc, disk, &limits), out),
        Deed::Start { adopt } => {
            return told(alloc, "start", open(alloc, disk, adopt, limits), out);
        }
        Deed::Run(run) => return serve_all(alloc, disk, limits, run, out),
        Deed::Show => tell_files(alloc, &disk, out)?,
        Deed::Bytes { area } => tell_bytes(alloc, &disk, area, out)?,
        Deed::Serve { line: _ } | Deed::Stop => out.push_str("refused: no store is open\n")?,
        deed => tell_written(write_on(&mut disk, &deed), out)?,
    }
    Ok(Stage::Stopped(disk))
}
