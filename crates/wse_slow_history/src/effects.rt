// The effects of an edit.
ghost use Rattle.std.specs.Prelude.{◌≡◌, ◌≢◌, [], ◌++◌, All, filter, map, true, IfOk, OnOk};
ghost use Rattle.std.specs.FinMap.{is_sorted};
ghost use Rattle.wse_path.specs.Order.{path_cmp};
ghost use Rattle.wse_path.specs.Changes.{contents_of};
ghost use Rattle.wse_element.specs.Applicable.{has_future};
ghost use Rattle.wse_apply.specs.Kept.{all_edit_texts, edits_text};
ghost use Rattle.wse_history.specs.Edits.{part_of, made, push_of, edit_effects};
ghost use Rattle.wse_history.specs.Done.{IsDone};
ghost use Rattle.wse_slow_history.specs.Slow.{state_of};

use crate::state::SlowState;
use std::alloc::Global;
use wse_apply::Performed;
use wse_element::{Body, Effect, Element, Part, PartState, Parts};
use wse_path::{Change, Duplicate, Edit, Memory, Numbered, Operation, What};
use wse_plain::has_future;

fn edits_text(operation: &Operation) -> bool
    ensures { result ≡ edits_text operation.now.what }
{
    match &operation.what {
        What::Text { .. } => true,
        What::Resource(_) => false,
    }
}

/// Whether every operation, as it was given, edits a text.
fn all_edit_texts(operations: &[Operation]) -> bool
    ensures { result ≡ all_edit_texts operations.now }
{
    operations.iter().all(|operation| edits_text(operation))
}

/// What the element of an edit says of a path that it changed.
fn part_of(alloc: Global, change: &Change) -> Result<Part, Memory>
    requires { change.now.before ≢ change.now.after }
    ensures { IfOk result (λ part. part ≡ part_of change.now) }
{
    let path = change.path.duplicate(alloc)?;
    let was = change.before.duplicate(alloc)?;
    let is = change.after.duplicate(alloc)?;
    Ok(Part::new(path, PartState::Live, true, Body::Whole { was, is }))
}

fn parts_of(alloc: Global, changes: &[Change]) -> Result<Parts, Memory>
    requires { All (λ c. c.before ≢ c.after) changes.now }
    ensures { IfOk result (λ parts. parts ≡ map part_of changes.now) }
{
    let mut parts = Vec::with_capacity(alloc, changes.len())?;
    for change in changes {
        parts.push(part_of(alloc, change)?)?;
    }
    Ok(Parts::new(parts))
}

/// The element that the edit makes.
fn made(
    alloc: Global,
    state: &SlowState,
    edit: &Edit,
    changes: &[Change],
) -> Result<Element, Memory>
    requires some { changes.now ≢ [] }
    requires differ { All (λ c. c.before ≢ c.after) changes.now }
    requires rise { is_sorted path_cmp (contents_of changes.now) ≡ true }
    ensures { IfOk result (λ element. element ≡ made (state_of state.now) edit.now changes.now) }
{
    let id = state.next_id;
    let label = edit.label.duplicate(alloc)?;
    let splits = all_edit_texts(edit.operations.as_slice());
    let parts = parts_of(alloc, changes)?;
    Ok(Element::new(id, id, label, splits, true, parts))
}

/// The drops of the futures of the changed paths.
fn drops(alloc: Global, elements: &[Element], changes: &[Change]) -> Result<Vec<Effect>, Memory>
    ensures { IfOk result (λ effects. effects.items
        ≡ map (λ p. Effect.Drop p PartState.Incompatible) (filter (has_future elements.now) (map (λ c. c.path) changes.now))) }
{
    let mut effects = Vec::new(alloc);
    for change in changes {
        if has_future(elements, &change.path) {
            effects.push(Effect::Drop {
                path: change.path.duplicate(alloc)?,
                reason: PartState::Incompatible,
            })?;
        }
    }
    Ok(effects)
}

/// Adds the new element's effect, where anything changed.
fn push_made(
    effects: &mut Vec<Effect>,
    alloc: Global,
    state: &SlowState,
    edit: &Edit,
    changes: &[Change],
) -> Result<(), Memory>
    requires differ { All (λ c. c.before ≢ c.after) changes.now }
    requires rise { is_sorted path_cmp (contents_of changes.now) ≡ true }
    ensures { OnOk result (effects.new.items ≡ effects.old.items ++ push_of (state_of state.now) edit.now changes.now) }
{
    if changes.is_empty() {
        return Ok(());
    }
    effects.push(Effect::Push(made(alloc, state, edit, changes)?))?;
    Ok(())
}

fn push_bumps(effects: &mut Vec<Effect>, alloc: Global, bumps: &[Numbered]) -> Result<(), Memory>
    ensures { OnOk result (effects.new.items ≡ effects.old.items ++ map (λ b. Effect.Bump b.path b.number) bumps.now) }
{
    for bump in bumps {
        let path = bump.path.duplicate(alloc)?;
        effects.push(Effect::Bump {
            path,
            by: bump.number,
        })?;
    }
    Ok(())
}

/// The effects of an edit that did this: the futures of the changed paths are dropped, then the new element comes, then
/// versions rise.
pub(crate) fn edit_effects(
    alloc: Global,
    state: &SlowState,
    edit: &Edit,
    done: &Performed,
) -> Result<Vec<Effect>, Memory>
    requires { IsDone (state_of state.now).files done.now }
    ensures { IfOk result (λ effects. effects.items ≡ edit_effects (state_of state.now) edit.now done.now) }
{
    let changes = done.changes.as_slice();
    let mut effects = drops(alloc, state.records.as_slice(), changes)?;
    push_made(&mut effects, alloc, state, edit, changes)?;
    push_bumps(&mut effects, alloc, done.bumps.as_slice())?;
    Ok(effects)
}
