// What an edit does to the history, and its answer.
ghost use Rattle.std.specs.Prelude.{◌≡◌, [], None, map, IfOk};
ghost use Rattle.wse_apply.specs.Performed.{performed};
ghost use Rattle.wse_history.specs.Edits.{edit_outcome, performed_outcome};
ghost use Rattle.wse_history.specs.Done.{IsDone};
ghost use Rattle.wse_history.specs.History.{IsHistory};
ghost use Rattle.wse_history.specs.Outcome.{stays, records, numbered};
ghost use Rattle.wse_history.specs.Plans.{element_of};
ghost use Rattle.wse_slow_history.specs.Slow.{state_of, outcome_of};

use crate::after::state_after;
use crate::effects::edit_effects;
use crate::held::{tree_of, versions_of};
use crate::limits::edit_hit;
use crate::outcome::{SlowOutcome, numbered, records, stays};
use crate::state::SlowState;
use std::alloc::Global;
use wse_apply::{Performed, Reason, Skips, performed_slowly};
use wse_element::Effect;
use wse_history::Answer;
use wse_path::{Bumps, Changes, Duplicate, Edit, Hit, Limits, Memory, Numbered, RelPath};

/// Nothing is recorded.
fn unrecorded(
    alloc: Global,
    failed: Option<(u64, Reason)>,
    limit: Option<Hit>,
    skipped: Skips,
) -> SlowOutcome
    ensures { outcome_of result ≡ stays (Answer.Edit [] None failed limit skipped) }
{
    stays(
        alloc,
        Answer::Edit {
            changed: Bumps::new(Vec::new(alloc)),
            element: None,
            failed,
            limit,
            skipped,
        },
    )
}

/// The paths whose versions rise.
fn paths_of(alloc: Global, bumps: &[Numbered]) -> Result<Vec<RelPath>, Memory>
    ensures { IfOk result (λ paths. paths.items ≡ map (λ b. b.path) bumps.now) }
{
    let mut paths = Vec::with_capacity(alloc, bumps.len())?;
    for bump in bumps {
        paths.push(bump.path.duplicate(alloc)?)?;
    }
    Ok(paths)
}

/// The id of the element that the changes make: none without changes.
fn element_of(next_id: u64, changes: &Changes) -> Option<u64>
    ensures { result ≡ element_of next_id changes.now }
{
    if changes.is_empty() {
        return None;
    }
    Some(next_id)
}

/// The effects are recorded, which leave this state.
fn recorded(
    alloc: Global,
    state: &SlowState,
    next: &SlowState,
    effects: Vec<Effect>,
    done: Performed,
) -> Result<SlowOutcome, Memory>
    ensures { IfOk result (λ o. outcome_of o ≡ records effects.items
        (Answer.Edit (numbered (state_of next.now) (map (λ b. b.path) done.bumps)) (element_of state.now.next_id done.changes) done.failed None done.skipped)) }
{
    let element = element_of(state.next_id, &done.changes);
    let paths = paths_of(alloc, done.bumps.as_slice())?;
    let changed = numbered(alloc, next, paths.as_slice())?;
    let Performed {
        changes: _,
        bumps: _,
        failed,
        skipped,
    } = done;
    Ok(records(
        effects,
        Answer::Edit {
            changed,
            element,
            failed,
            limit: None,
            skipped,
        },
    ))
}

/// What an edit that did this records, and its answer.
fn performed_outcome(
    alloc: Global,
    limits: &Limits,
    state: &SlowState,
    edit: &Edit,
    done: Performed,
) -> Result<SlowOutcome, Memory>
    requires { IsDone (state_of state.now).files done }
    ensures { IfOk result (λ o. outcome_of o ≡ performed_outcome limits.now (state_of state.now) edit.now done) }
{
    let effects = edit_effects(alloc, state, edit, &done)?;
    if effects.is_empty() {
        return Ok(unrecorded(alloc, done.failed, None, done.skipped));
    }
    let next = state_after(alloc, state, effects.as_slice())?;
    match edit_hit(limits, &next) {
        Some(hit) => Ok(unrecorded(alloc, None, Some(hit), done.skipped)),
        None => recorded(alloc, state, &next, effects, done),
    }
}

/// What the edit does, in whole trees.
fn performed(
    alloc: Global,
    limits: &Limits,
    state: &SlowState,
    by: u32,
    edit: &Edit,
) -> Result<Performed, Memory>
    requires { IsHistory (state_of state.now) limits.now }
    ensures { IfOk result (λ done. let s = state_of state.now in done ≡ performed s.files s.versions s.locks limits.now by edit.now) }
{
    let tree = tree_of(alloc, state.files.as_slice())?;
    let versions = versions_of(alloc, state.versions.as_slice(), state.serial)?;
    performed_slowly(alloc, &tree, &versions, &state.locks, limits, by, edit)
}

/// What the participant's edit does.
pub(crate) fn edit_outcome(
    alloc: Global,
    limits: &Limits,
    state: &SlowState,
    by: u32,
    edit: &Edit,
) -> Result<SlowOutcome, Memory>
    requires { IsHistory (state_of state.now) limits.now }
    ensures { IfOk result (λ o. outcome_of o ≡ edit_outcome limits.now (state_of state.now) by edit.now) }
{
    let done = performed(alloc, limits, state, by, edit)?;
    performed_outcome(alloc, limits, state, edit, done)
}
