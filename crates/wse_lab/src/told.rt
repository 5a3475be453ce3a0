// Calls of the disk, and how runs end, as text.
use crate::plain::push_path;
use std::alloc::Global;
use wse_disk::{Area, Call};
use wse_path::{Hit, Memory, Which};
use wse_run::RunEnd;

/// The area's name.
pub fn area_name(area: Area) -> &'static str {
    match area {
        Area::Switch => "switch",
        Area::LogA => "log_a",
        Area::LogB => "log_b",
    }
}

fn push_kind(alloc: Global, out: &mut String, call: &Call) -> Result<(), Memory> {
    match call {
        Call::Store {
            path,
            bytes,
            failed: _,
        } => {
            out.push_str("store ")?;
            push_path(alloc, out, path)?;
            write!(out, " {}", bytes.len())?;
        }
        Call::Erase { path, failed: _ } => {
            out.push_str("erase ")?;
            push_path(alloc, out, path)?;
        }
        Call::Patch {
            area,
            at,
            bytes,
            failed: _,
        } => {
            write!(out, "write {} {at} {}", area_name(*area), bytes.len())?;
        }
        Call::Sync { failed: _ } => out.push_str("sync")?,
    }
    Ok(())
}

/// Appends the calls, one a line.
pub fn push_calls(alloc: Global, out: &mut String, calls: &[Call]) -> Result<(), Memory> {
    for call in calls {
        push_kind(alloc, out, call)?;
        out.push_str(if call.has_failed() { " failed\n" } else { "\n" })?;
    }
    Ok(())
}

fn limit_name(which: Which) -> &'static str {
    match which {
        Which::Files => "files",
        Which::FileBytes => "file bytes",
        Which::TreeBytes => "tree bytes",
        Which::Known => "known",
        Which::Weight => "weight",
        Which::Serial => "serial",
    }
}

fn push_hit(out: &mut String, hit: Hit) -> Result<(), Memory> {
    write!(out, "limit {}: {}", limit_name(hit.which), hit.would_be)?;
    Ok(())
}

/// Appends how a run over a store ended.
pub fn push_end(alloc: Global, out: &mut String, end: &RunEnd) -> Result<(), Memory> {
    match end {
        RunEnd::Done => out.push_str("done")?,
        RunEnd::Read => out.push_str("the source failed")?,
        RunEnd::Write => out.push_str("the sink failed")?,
        RunEnd::Disk => out.push_str("the disk failed")?,
        RunEnd::Memory => return Err(Memory),
        RunEnd::NotAStore { at } => write!(out, "no store, at byte {at}")?,
        RunEnd::TooBig(hit) => push_hit(out, *hit)?,
        RunEnd::InputLimit { limit } => write!(out, "more than {limit} bytes of input")?,
        RunEnd::Differs(path) => {
            out.push_str("differs at ")?;
            push_path(alloc, out, path)?;
        }
    }
    Ok(())
}
