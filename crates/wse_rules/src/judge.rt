// The verdict on an undo or a redo.
ghost use Rattle.std.specs.Prelude.{◌≡◌, Some, None, true, IfOk};
ghost use Rattle.std.specs.List.{list_all};
ghost use Rattle.wse_rules.specs.Ruling.{closest, one_ruling, blocked, blocked_ruling, chosen_ruling, free_ruling, across_ruling, choice_for, ruling};
ghost use Rattle.wse_rules.specs.Named.{named, is_path_of};

use crate::blocking::{all_paths, changed, invalid, is_held, locked, only, removed};
use crate::closest::closest;
use crate::ruling::{Cause, Ruling};
use std::alloc::Global;
use wse_element::Element;
use wse_locks::Locks;
use wse_path::{Choice, Direction, Files, Memory, RelPath};
use wse_stacks::Stacks;

/// An element of one part is moved, unless another program wrote the file or another participant holds it.
fn one(
    alloc: Global,
    locks: &Locks,
    by: u32,
    path: &RelPath,
    element: &Element,
) -> Result<Ruling, Memory>
    ensures { IfOk result (λ r. r ≡ one_ruling locks.now.entries by path.now element.now) }
{
    if !element.is_valid_at(path) {
        return Ok(Ruling::Flush {
            cause: Cause::Invalid,
            files: only(alloc, path)?,
            dropped: only(alloc, path)?,
        });
    }
    if is_held(locks, by, path) {
        return Ok(Ruling::Locked {
            files: only(alloc, path)?,
        });
    }
    Ok(Ruling::Go { id: element.id() })
}

/// What becomes of an element that can't be moved at these files.
fn held_back(alloc: Global, element: &Element, cause: Cause, files: Files) -> Result<Ruling, Memory>
    ensures { IfOk result (λ r. r ≡ blocked_ruling (record { cause = cause; files = files }) element.now) }
{
    if element.splits() {
        return Ok(Ruling::Split {
            id: element.id(),
            cause,
            files,
        });
    }
    Ok(Ruling::Flush {
        cause,
        files,
        dropped: all_paths(alloc, element)?,
    })
}

/// What becomes of an element that can be moved at all its files. Takes no memory.
fn free(alloc: Global, element: &Element, choice: Choice) -> Ruling
    ensures { result ≡ free_ruling choice element.now }
{
    let id = element.id();
    if !element.splits() {
        return Ruling::Go { id };
    }
    match choice {
        Choice::All => Ruling::Go { id },
        Choice::This => Ruling::Split {
            id,
            cause: Cause::Chosen,
            files: Files::new(Vec::new(alloc)),
        },
        Choice::Cancel => Ruling::Cancelled { id },
        Choice::Turned { files } => Ruling::Split {
            id,
            cause: Cause::Meantime,
            files,
        },
    }
}

/// An element of several parts: the first list that names a file decides, and then the choice.
fn across(
    alloc: Global,
    stacks: &Stacks,
    locks: &Locks,
    by: u32,
    direction: Direction,
    choice: Choice,
    element: &Element,
) -> Result<Ruling, Memory>
    ensures { IfOk result (λ r. r ≡ across_ruling (blocked direction stacks.now.state.records locks.now.entries by element.now) choice element.now) }
{
    let files = removed(alloc, element)?;
    if !files.is_empty() {
        return held_back(alloc, element, Cause::Removed, files);
    }
    let files = changed(alloc, stacks, direction, element)?;
    if !files.is_empty() {
        return held_back(alloc, element, Cause::Changed, files);
    }
    let files = locked(alloc, locks, by, element)?;
    if !files.is_empty() {
        return held_back(alloc, element, Cause::Locked, files);
    }
    let files = invalid(alloc, element)?;
    if !files.is_empty() {
        return held_back(alloc, element, Cause::Invalid, files);
    }
    Ok(free(alloc, element, choice))
}

/// A redo asks nothing.
fn choice_for(direction: Direction, choice: Choice) -> Choice
    ensures { result ≡ choice_for direction choice }
{
    match direction {
        Direction::Back => choice,
        Direction::Forward => Choice::All,
    }
}

fn judged(
    alloc: Global,
    stacks: &Stacks,
    locks: &Locks,
    by: u32,
    path: &RelPath,
    direction: Direction,
    choice: Choice,
) -> Result<Ruling, Memory>
    ensures { IfOk result (λ r. r ≡ ruling direction stacks.now.state.records locks.now.entries by path.now choice) }
{
    match closest(stacks, direction, path) {
        Some(element) => {
            if element.parts().len() < 2 {
                return one(alloc, locks, by, path, element);
            }
            let choice = choice_for(direction, choice);
            across(alloc, stacks, locks, by, direction, choice, element)
        }
        None => Ok(Ruling::Nothing),
    }
}

/// What becomes of an undo or a redo at the path, if the participant asks for it. An undo is about the path's closest past, a
/// redo about its closest future. It takes memory for the files that it names alone. This project's own rule.
pub fn verdict(
    alloc: Global,
    stacks: &Stacks,
    locks: &Locks,
    by: u32,
    path: &RelPath,
    direction: Direction,
    choice: Choice,
) -> Result<Ruling, Memory>
    ensures ruling { IfOk result (λ r. r ≡ ruling direction stacks.now.state.records locks.now.entries by path.now choice) }
    ensures named { IfOk result (λ r. list_all (is_path_of (closest direction stacks.now.state.records path.now)) (named r) ≡ true) }
{
    judged(alloc, stacks, locks, by, path, direction, choice)
}
