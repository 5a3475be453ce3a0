// What an undo or a redo is going to do after a split.
ghost use Rattle.std.specs.Prelude.{◌≡◌, ◌∷◌, [], Some, position, IfOk};
ghost use Rattle.wse_locks.specs.Locks.{is_held};
ghost use Rattle.wse_element.specs.Live.{is_live_part_at};
ghost use Rattle.wse_element.specs.Stacks.{record_of};
ghost use Rattle.wse_history.specs.Moves.{begun_course, split_outcome};
ghost use Rattle.wse_history.specs.Placed.{place, IsRuledSplit};
ghost use Rattle.wse_history.specs.Planning.{PlansAsOutcome, MayRecordIfAny};

use crate::answer::{MoveEnd, SplitNote};
use crate::asked::Asked;
use crate::closes::plan_closed;
use crate::goes::plan_go;
use crate::history::History;
use crate::planned::Planned;
use std::alloc::Global;
use wse_element::{Element, Part};
use wse_locks::Locks;
use wse_path::{Direction, Duplicate, Files, Memory, RelPath};
use wse_rules::Cause;

/// How many live parts stand before the path's. Takes no memory.
fn place(path: &RelPath, parts: &[Part]) -> u64
    ensures { result ≡ place path.now parts.now }
{
    let mut place = 0;
    for part in parts {
        if part.is_live_at(path) {
            return place;
        }
        if part.is_live() {
            place += 1;
        }
    }
    place
}

fn index_at(parts: &[Part], path: &RelPath) -> Option<usize>
    ensures { result ≡ position (is_live_part_at path.now) parts.now }
{
    parts.iter().position(|part| part.is_live_at(path))
}

/// Whether another participant holds the path. Takes no memory.
fn is_held(locks: &Locks, by: u32, path: &RelPath) -> bool
    ensures { result ≡ is_held locks.now.entries by path.now }
{
    match locks.holder(path) {
        Some(holder) => holder != by,
        None => false,
    }
}

fn only(alloc: Global, path: &RelPath) -> Result<Files, Memory>
    ensures { IfOk result (λ files. files ≡ path.now ∷ []) }
{
    let mut files = Vec::with_capacity(alloc, 1)?;
    files.push(path.duplicate(alloc)?)?;
    Ok(Files::new(files))
}

/// What an undo or a redo is going to do once this element is split: its piece at the path is judged by itself.
pub(crate) fn plan_split(
    alloc: Global,
    history: &History,
    by: u32,
    direction: Direction,
    path: &RelPath,
    element: &Element,
    note: SplitNote,
) -> Result<Planned, Memory>
    requires ruled { IsRuledSplit history.now.state by direction path.now note }
    requires found { record_of history.now.state.records note.id ≡ Some element.now }
    ensures planned { IfOk result (PlansAsOutcome history.now.state (split_outcome history.now.limits history.now.state by path.now (begun_course history.now.state direction path.now) note)) }
    ensures may { IfOk result (λ planned. MayRecordIfAny history.now.limits history.now.state planned.plan) }
{
    let _ = history.limits();
    let asked = Asked {
        direction,
        id: element.id(),
        split: Some(note),
    };
    if !element.is_valid_at(path) {
        let paths = only(alloc, path)?;
        let end = MoveEnd::Flushed {
            cause: Cause::Invalid,
            files: only(alloc, path)?,
            dropped: only(alloc, path)?,
        };
        return plan_closed(alloc, history, asked, paths.as_slice(), end);
    }
    if is_held(history.locks(), by, path) {
        let none = Files::new(Vec::new(alloc));
        let end = MoveEnd::Locked {
            files: only(alloc, path)?,
        };
        return plan_closed(alloc, history, asked, none.as_slice(), end);
    }
    let parts = element.parts();
    match index_at(parts, path) {
        Some(index) => {
            let id = history.stacks().next_id() + place(path, parts);
            plan_go(alloc, history, asked, id, &parts[index..index + 1])
        }
        None => unreachable!(),
    }
}
