// What an edit is going to do.
ghost use Rattle.std.specs.Prelude.{◌≡◌, Some, None, IfOk};
ghost use Rattle.wse_apply.specs.Performed.{performed};
ghost use Rattle.wse_history.specs.Edits.{edit_effects, edit_hit, edit_outcome, performed_outcome};
ghost use Rattle.wse_history.specs.Done.{IsDoneWithin};
ghost use Rattle.wse_history.specs.Planning.{PlansAsOutcome, MayRecordIfAny};
ghost use Rattle.wse_history.specs.Plans.{element_of, left_alone, recorded_as};

use crate::answer::Answer;
use crate::effects::edit_effects;
use crate::history::History;
use crate::limits::edit_hit;
use crate::planned::Planned;
use crate::versions::changed;
use crate::written::tell_effects;
use std::alloc::Global;
use wse_apply::{Performed, Reason, Skips, perform};
use wse_element::{Effects, Plan};
use wse_path::{Bumps, Changes, Edit, Hit, Memory};

/// Nothing is recorded.
fn left_alone(
    alloc: Global,
    failed: Option<(u64, Reason)>,
    limit: Option<Hit>,
    skipped: Skips,
) -> Planned
    ensures { result ≡ left_alone failed limit skipped }
{
    Planned {
        plan: Plan {
            effects: Effects::new(Vec::new(alloc)),
            changes: Changes::new(Vec::new(alloc)),
        },
        locks: None,
        answer: Answer::Edit {
            changed: Bumps::new(Vec::new(alloc)),
            element: None,
            failed,
            limit,
            skipped,
        },
    }
}

/// The edit records nothing.
fn unrecorded(alloc: Global, done: Performed) -> Planned
    ensures { result ≡ left_alone done.failed None done.skipped }
{
    let Performed {
        changes: _,
        bumps: _,
        failed,
        skipped,
    } = done;
    left_alone(alloc, failed, None, skipped)
}

/// The edit would pass a limit, and no operation is named then.
fn refused(alloc: Global, done: Performed, hit: Hit) -> Planned
    ensures { result ≡ left_alone None (Some hit) done.skipped }
{
    let Performed {
        changes: _,
        bumps: _,
        failed: _,
        skipped,
    } = done;
    left_alone(alloc, None, Some(hit), skipped)
}

/// The id of the element that the changes make: none without changes.
fn element_of(next_id: u64, changes: &Changes) -> Option<u64>
    ensures { result ≡ element_of next_id changes.now }
{
    if changes.is_empty() {
        return None;
    }
    Some(next_id)
}

/// The effects are recorded, by which these paths have these versions.
fn recorded(next_id: u64, done: Performed, effects: Effects, changed: Bumps) -> Planned
    ensures { result ≡ recorded_as next_id done effects changed }
{
    let element = element_of(next_id, &done.changes);
    let Performed {
        changes,
        bumps: _,
        failed,
        skipped,
    } = done;
    Planned {
        plan: Plan { effects, changes },
        locks: None,
        answer: Answer::Edit {
            changed,
            element,
            failed,
            limit: None,
            skipped,
        },
    }
}

/// What an edit that did this is going to record, and its answer.
fn plan_done(
    alloc: Global,
    history: &History,
    edit: &Edit,
    done: Performed,
) -> Result<Planned, Memory>
    requires { IsDoneWithin history.now.limits history.now.state.files done }
    ensures planned { IfOk result (PlansAsOutcome history.now.state (performed_outcome history.now.limits history.now.state edit.now done)) }
    ensures may { IfOk result (λ planned. MayRecordIfAny history.now.limits history.now.state planned.plan) }
{
    let _ = history.limits();
    let effects = edit_effects(alloc, history, edit, &done)?;
    if effects.is_empty() {
        return Ok(unrecorded(alloc, done));
    }
    let changed = changed(alloc, history, done.bumps.as_slice())?;
    tell_effects(effects.as_slice());
    match edit_hit(alloc, history, effects.as_slice(), changed.as_slice())? {
        Some(hit) => Ok(refused(alloc, done, hit)),
        None => Ok(recorded(history.stacks().next_id(), done, effects, changed)),
    }
}

/// What the participant's edit is going to do, and its answer. It costs about what the edit changes.
pub(crate) fn plan_edit(
    alloc: Global,
    history: &History,
    by: u32,
    edit: &Edit,
) -> Result<Planned, Memory>
    ensures planned { IfOk result (PlansAsOutcome history.now.state (edit_outcome history.now.limits history.now.state by edit.now)) }
    ensures may { IfOk result (λ planned. MayRecordIfAny history.now.limits history.now.state planned.plan) }
{
    let limits = history.limits();
    let done = perform(
        alloc,
        history.tree(),
        history.versions(),
        history.locks(),
        limits,
        by,
        edit,
    )?;
    plan_done(alloc, history, edit, done)
}
