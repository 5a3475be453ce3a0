// The commands.
use crate::failed::Failed;
use crate::made::{bumps, drops, element, elements, only, paths};
use crate::work::{Command, Work};
use std::alloc::Global;
use wse_element::{Effect, Effects, PartState};
use wse_path::{Duplicate, RelPath};
use wse_stacks::Stacks;

fn begin(alloc: Global, count: usize) -> Result<Stacks, Failed> {
    let all = elements(alloc, count)?;
    let next_id = (count as u64).saturating_add(1);
    Ok(Stacks::from_elements(alloc, all, next_id, next_id)?)
}

fn record(stacks: &mut Stacks, alloc: Global, effects: Effects) -> Result<(), Failed> {
    if effects.len() == 0 {
        return Err(Failed);
    }
    stacks.reserve(alloc, effects.as_slice())?;
    stacks.apply(effects);
    Ok(())
}

// A new element, whose id is answered.
fn edit(
    stacks: &mut Stacks,
    alloc: Global,
    paths: &[RelPath],
    round: usize,
) -> Result<u64, Failed> {
    let id = stacks.next_id();
    let element = element(alloc, id, paths, round)?;
    record(stacks, alloc, only(alloc, Effect::Push(element))?)?;
    Ok(id)
}

fn undo(stacks: &mut Stacks, alloc: Global, id: u64) -> Result<(), Failed> {
    record(stacks, alloc, only(alloc, Effect::MoveBack { id })?)
}

fn redo(stacks: &mut Stacks, alloc: Global, id: u64) -> Result<(), Failed> {
    record(stacks, alloc, only(alloc, Effect::MoveForward { id })?)
}

// The element that was made at these paths, which the first round makes.
fn edit_or_last(stacks: &mut Stacks, alloc: Global, paths: &[RelPath]) -> Result<u64, Failed> {
    match paths {
        [first, ..] => match stacks.closest_past(first) {
            Some(id) => Ok(id),
            None => edit(stacks, alloc, paths, 0),
        },
        [] => Err(Failed),
    }
}

fn split(stacks: &mut Stacks, alloc: Global, id: u64) -> Result<(), Failed> {
    let first = stacks.next_id();
    record(stacks, alloc, only(alloc, Effect::Split { id, first })?)
}

fn flush(stacks: &mut Stacks, alloc: Global, paths: &[RelPath]) -> Result<(), Failed> {
    record(stacks, alloc, drops(alloc, paths, PartState::Closed)?)
}

// What the elements count for after each path's future is dropped.
fn weigh(stacks: &Stacks, alloc: Global, paths: &[RelPath]) -> Result<(), Failed> {
    for path in paths {
        let path = path.duplicate(alloc)?;
        let reason = PartState::Incompatible;
        let _ = stacks.weight_after(alloc, &[Effect::Drop { path, reason }])?;
    }
    Ok(())
}

// One round of the command. The history's paths are as before it, but for edits.
fn once(
    stacks: &mut Stacks,
    alloc: Global,
    work: &Work,
    paths: &[RelPath],
    round: usize,
) -> Result<(), Failed> {
    match work.command {
        Command::Edit => {
            let _ = edit(stacks, alloc, paths, round)?;
            Ok(())
        }
        Command::Undo => {
            let id = edit_or_last(stacks, alloc, paths)?;
            undo(stacks, alloc, id)?;
            redo(stacks, alloc, id)
        }
        Command::Split => {
            let id = edit(stacks, alloc, paths, round)?;
            split(stacks, alloc, id)
        }
        Command::Drop => {
            let id = edit(stacks, alloc, paths, 0)?;
            undo(stacks, alloc, id)?;
            record(stacks, alloc, drops(alloc, paths, PartState::Incompatible)?)
        }
        Command::Flush => {
            let _ = edit(stacks, alloc, paths, 0)?;
            flush(stacks, alloc, paths)
        }
        Command::Bump => record(stacks, alloc, bumps(alloc, paths)?),
        Command::Weigh => weigh(stacks, alloc, paths),
        Command::Link => {
            let count = stacks.count();
            *stacks = begin(alloc, count)?;
            Ok(())
        }
    }
}

/// Does the command as often as it is told, and answers how many elements there are then.
pub fn run(alloc: Global, work: &Work) -> Result<usize, Failed> {
    let mut stacks = begin(alloc, work.elements)?;
    let paths = paths(alloc, work.parts)?;
    for round in 0..work.times {
        once(&mut stacks, alloc, work, &paths, round)?;
    }
    Ok(stacks.count())
}
