// A crash at every moment of a run, and one more inside the opening behind it.
use crate::disks::crashed;
use crate::opening::{Left, open};
use crate::sim::counts::Counts;
use crate::sim::past::{Past, state_of};
use crate::sim::stop::SimStop;
use crate::stage::Stage;
use std::alloc::Global;
use wse_path::Limits;
use wse_quiet_disk::QuietDisk;

/// How many choices of an image are tried.
const CHOICES: u64 = 8;

/// How many inside an opening.
const CHOICES_AGAIN: u64 = 3;

/// A store that was opened again: its disk, and the text of its state.
#[derive(Drop)]
pub struct Reopened {
    pub disk: QuietDisk,
    pub state: String,
}

/// Opens the store on a disk; none where it doesn't open.
pub fn open_again(alloc: Global, disk: QuietDisk) -> Result<Option<Reopened>, SimStop> {
    let Left { stage, end: _ } = open(alloc, disk, false, Limits::standard());
    match stage {
        Stage::Open(store) => {
            let state = state_of(alloc, &store)?;
            Ok(Some(Reopened {
                disk: store.into_disk(),
                state,
            }))
        }
        Stage::Stopped(_) => Ok(None),
    }
}

fn differs_at(alloc: Global, what: &str, moment: u64, choice: u64) -> SimStop {
    match format!(in alloc; "{what} by the image of moment {moment}, choice {choice}") {
        Ok(text) => SimStop::Differs(text),
        Err(_) => SimStop::Memory,
    }
}

// One more crash, inside the opening: the state is the same.
fn try_again(
    alloc: Global,
    first: &Reopened,
    moment: u64,
    choice: u64,
    counts: &mut Counts,
) -> Result<(), SimStop> {
    let Some(image) = crashed(&first.disk, moment, choice)? else {
        return Ok(());
    };
    counts.count_again();
    match open_again(alloc, image)? {
        Some(again) if again.state.as_str() == first.state.as_str() => Ok(()),
        _ => Err(differs_at(alloc, "a second crash differs", moment, choice)),
    }
}

// Each crash inside the opening, where that did more than sync.
fn try_all_again(alloc: Global, first: &Reopened, counts: &mut Counts) -> Result<(), SimStop> {
    let count = first.disk.disk.calls().len() as u64;
    if count < 2 {
        return Ok(());
    }
    for number in 0..count.saturating_mul(CHOICES_AGAIN) {
        let moment = (number / CHOICES_AGAIN).saturating_add(1);
        try_again(alloc, first, moment, number % CHOICES_AGAIN, counts)?;
    }
    Ok(())
}

fn try_image(
    alloc: Global,
    past: &Past,
    lines: usize,
    moment: u64,
    choice: u64,
    counts: &mut Counts,
) -> Result<(), SimStop> {
    let Some(image) = crashed(&past.disk, moment, choice)? else {
        return Ok(());
    };
    counts.count_image();
    let Some(first) = open_again(alloc, image)? else {
        return Err(differs_at(alloc, "no store is opened", moment, choice));
    };
    match past.is_behind(lines, first.state.as_str()) {
        Some(is_next) => counts.count_reopened(is_next),
        None => return Err(differs_at(alloc, "another state is opened", moment, choice)),
    }
    try_all_again(alloc, &first, counts)
}

fn try_moment(
    alloc: Global,
    past: &Past,
    moment: usize,
    counts: &mut Counts,
) -> Result<(), SimStop> {
    let Some(lines) = past.answered_at(moment) else {
        return Ok(());
    };
    counts.count_moment();
    for choice in 0..CHOICES {
        try_image(alloc, past, lines, moment as u64, choice, counts)?;
    }
    Ok(())
}

/// Tries each moment since the store was opened.
pub fn try_crashes(alloc: Global, past: &Past, counts: &mut Counts) -> Result<(), SimStop> {
    for moment in 0..=past.disk.disk.calls().len() {
        try_moment(alloc, past, moment, counts)?;
    }
    Ok(())
}
