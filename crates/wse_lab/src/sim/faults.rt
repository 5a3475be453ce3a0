// Each call of the disk failing in turn, and the same disk started again.
use crate::opening::{Answered, Left, answer, make};
use crate::sim::counts::Counts;
use crate::sim::crashes::open_again;
use crate::sim::past::{Past, made};
use crate::sim::script::Script;
use crate::sim::stop::SimStop;
use crate::stage::{Stage, Store};
use std::alloc::Global;
use wse_path::Limits;
use wse_quiet_disk::QuietDisk;

/// The most calls that are tried.
const MOST_CALLS: u64 = 100_000;

fn differs_by(alloc: Global, what: &str, number: u64) -> SimStop {
    match format!(in alloc; "{what} where call {number} fails") {
        Ok(text) => SimStop::Differs(text),
        Err(_) => SimStop::Memory,
    }
}

/// Where a run stopped.
#[derive(Drop)]
enum Stopped {
    /// The disk failed behind so many answered lines.
    Behind { disk: QuietDisk, lines: usize },
    /// It failed before a store was made and opened.
    Before(QuietDisk),
    /// It didn't fail.
    Never,
}

fn answered_all(alloc: Global, store: Store, lines: &[String]) -> Stopped {
    let mut store = store;
    for (index, line) in lines.iter().enumerate() {
        let Answered { stage, text: _ } = answer(alloc, store, line.as_str().as_bytes());
        match stage {
            Stage::Open(next) => store = next,
            Stage::Stopped(disk) => return Stopped::Behind { disk, lines: index },
        }
    }
    Stopped::Never
}

fn run_failing(alloc: Global, script: &Script, number: u64) -> Result<Stopped, SimStop> {
    let fails = [number].to_vec(alloc)?;
    match made(alloc, script, fails)? {
        Stage::Open(store) => Ok(answered_all(alloc, store, &script.lines)),
        Stage::Stopped(disk) => Ok(Stopped::Before(disk)),
    }
}

// A store is made over the disk again, and opened.
fn made_again(alloc: Global, disk: QuietDisk) -> QuietDisk {
    let Left { stage, end: _ } = make(alloc, disk, &Limits::standard());
    stage.into_disk()
}

// Whether the disk opens to the state behind so many lines, or behind one more.
fn check(
    alloc: Global,
    disk: QuietDisk,
    past: &Past,
    lines: usize,
    number: u64,
    counts: &mut Counts,
) -> Result<(), SimStop> {
    counts.count_fault();
    let Some(first) = open_again(alloc, disk)? else {
        return Err(differs_by(alloc, "no store is opened", number));
    };
    match past.is_behind(lines, first.state.as_str()) {
        Some(is_next) => counts.count_reopened(is_next),
        None => return Err(differs_by(alloc, "another state is opened", number)),
    }
    Ok(())
}

/// Tries each call, until a run meets no failure.
pub fn try_faults(
    alloc: Global,
    script: &Script,
    past: &Past,
    counts: &mut Counts,
) -> Result<(), SimStop> {
    for number in 1..MOST_CALLS {
        match run_failing(alloc, script, number)? {
            Stopped::Behind { disk, lines } => {
                check(alloc, disk, past, lines, number, counts)?;
            }
            Stopped::Before(disk) => {
                check(alloc, made_again(alloc, disk), past, 0, number, counts)?;
            }
            Stopped::Never => return Ok(()),
        }
    }
    Ok(())
}
