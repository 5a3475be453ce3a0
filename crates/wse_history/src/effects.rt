// The effects of an edit.
ghost use Rattle.std.specs.Prelude.{◌≡◌, ◌≢◌, [], ◌++◌, All, map, true, IfOk, OnOk};
ghost use Rattle.std.specs.FinMap.{is_sorted};
ghost use Rattle.wse_path.specs.Order.{path_cmp};
ghost use Rattle.wse_path.specs.Changes.{contents_of};
ghost use Rattle.wse_apply.specs.Kept.{all_edit_texts, edits_text};
ghost use Rattle.wse_history.specs.Edits.{part_of, made, push_of, edit_effects};
ghost use Rattle.wse_history.specs.Done.{IsDone};
ghost use Rattle.wse_history.specs.Plans.{drop_at, drops_at};

use crate::history::History;
use std::alloc::Global;
use wse_apply::Performed;
use wse_element::{Body, Effect, Effects, Element, Part, PartState, Parts};
use wse_path::{Change, Duplicate, Edit, Memory, Numbered, Operation, RelPath, What};
use wse_stacks::Stacks;

fn edits_text(operation: &Operation) -> bool
    ensures { result ≡ edits_text operation.now.what }
{
    match &operation.what {
        What::Text { .. } => true,
        What::Resource(_) => false,
    }
}

/// Whether every operation, as it was given, edits a text.
fn all_edit_texts(operations: &[Operation]) -> bool
    ensures { result ≡ all_edit_texts operations.now }
{
    operations.iter().all(|operation| edits_text(operation))
}

/// What the element of an edit says of a path that it changed.
fn part_of(alloc: Global, change: &Change) -> Result<Part, Memory>
    requires { change.now.before ≢ change.now.after }
    ensures { IfOk result (λ part. part ≡ part_of change.now) }
{
    let path = change.path.duplicate(alloc)?;
    let was = change.before.duplicate(alloc)?;
    let is = change.after.duplicate(alloc)?;
    Ok(Part::new(path, PartState::Live, true, Body::Whole { was, is }))
}

fn parts_of(alloc: Global, changes: &[Change]) -> Result<Parts, Memory>
    requires { All (λ c. c.before ≢ c.after) changes.now }
    ensures { IfOk result (λ parts. parts ≡ map part_of changes.now) }
{
    let mut parts = Vec::with_capacity(alloc, changes.len())?;
    for change in changes {
        parts.push(part_of(alloc, change)?)?;
    }
    Ok(Parts::new(parts))
}

/// The element that the edit makes.
fn made(
    alloc: Global,
    history: &History,
    edit: &Edit,
    changes: &[Change],
) -> Result<Element, Memory>
    requires some { changes.now ≢ [] }
    requires differ { All (λ c. c.before ≢ c.after) changes.now }
    requires rise { is_sorted path_cmp (contents_of changes.now) ≡ true }
    ensures { IfOk result (λ element. element ≡ made history.now.state edit.now changes.now) }
{
    let id = history.stacks().next_id();
    let label = edit.label.duplicate(alloc)?;
    let splits = all_edit_texts(edit.operations.as_slice());
    let parts = parts_of(alloc, changes)?;
    Ok(Element::new(id, id, label, splits, true, parts))
}

fn push_drop(
    effects: &mut Vec<Effect>,
    alloc: Global,
    stacks: &Stacks,
    path: &RelPath,
) -> Result<(), Memory>
    ensures { OnOk result (effects.new.items ≡ effects.old.items ++ drop_at stacks.now.state.records path.now) }
{
    if stacks.closest_future(path).is_some() {
        let path = path.duplicate(alloc)?;
        effects.push(Effect::Drop {
            path,
            reason: PartState::Incompatible,
        })?;
    }
    Ok(())
}

/// The drops of the changed paths' futures.
fn push_drops(
    effects: &mut Vec<Effect>,
    alloc: Global,
    stacks: &Stacks,
    changes: &[Change],
) -> Result<(), Memory>
    ensures { OnOk result (effects.new.items ≡ effects.old.items ++ drops_at stacks.now.state.records changes.now) }
{
    for change in changes {
        push_drop(effects, alloc, stacks, &change.path)?;
    }
    Ok(())
}

/// The new element, where something changed.
fn push_made(
    effects: &mut Vec<Effect>,
    alloc: Global,
    history: &History,
    edit: &Edit,
    changes: &[Change],
) -> Result<(), Memory>
    requires differ { All (λ c. c.before ≢ c.after) changes.now }
    requires rise { is_sorted path_cmp (contents_of changes.now) ≡ true }
    ensures { OnOk result (effects.new.items ≡ effects.old.items ++ push_of history.now.state edit.now changes.now) }
{
    if changes.is_empty() {
        return Ok(());
    }
    effects.push(Effect::Push(made(alloc, history, edit, changes)?))?;
    Ok(())
}

fn push_bumps(effects: &mut Vec<Effect>, alloc: Global, bumps: &[Numbered]) -> Result<(), Memory>
    ensures { OnOk result (effects.new.items ≡ effects.old.items ++ map (λ b. Effect.Bump b.path b.number) bumps.now) }
{
    for bump in bumps {
        let path = bump.path.duplicate(alloc)?;
        effects.push(Effect::Bump {
            path,
            by: bump.number,
        })?;
    }
    Ok(())
}

/// The effects of an edit that did this: the futures of the changed paths are dropped, then the new element comes, then
/// versions rise.
pub(crate) fn edit_effects(
    alloc: Global,
    history: &History,
    edit: &Edit,
    done: &Performed,
) -> Result<Effects, Memory>
    requires { IsDone history.now.state.files done.now }
    ensures { IfOk result (λ effects. effects ≡ edit_effects history.now.state edit.now done.now) }
{
    let changes = done.changes.as_slice();
    let mut effects = Vec::new(alloc);
    push_drops(&mut effects, alloc, history.stacks(), changes)?;
    push_made(&mut effects, alloc, history, edit, changes)?;
    push_bumps(&mut effects, alloc, done.bumps.as_slice())?;
    Ok(Effects::new(effects))
}
