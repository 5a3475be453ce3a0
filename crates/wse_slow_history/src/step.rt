// One step of the history: a command, what it leaves, and its answer.
ghost use Rattle.std.specs.Prelude.{◌≡◌, Some, IfOk};
ghost use Rattle.wse_history.specs.History.{IsHistory};
ghost use Rattle.wse_history.specs.Step.{outcome, recorded, with_locks, left, step};
ghost use Rattle.wse_history.specs.Planning.{entries_of};
ghost use Rattle.wse_slow_history.specs.Slow.{state_of, outcome_of};

use crate::after::state_after;
use crate::edits::edit_outcome;
use crate::forgetting::forget_outcome;
use crate::leaving::leave_outcome;
use crate::locking::lock_outcome;
use crate::looking::look_outcome;
use crate::moves::move_outcome;
use crate::outcome::SlowOutcome;
use crate::outsides::outside_outcome;
use crate::state::SlowState;
use crate::unlocking::unlock_outcome;
use std::alloc::Global;
use wse_element::Effect;
use wse_history::Answer;
use wse_history::laws::outcomes_may_apply;
use wse_locks::Locks;
use wse_path::{Command, Limits, Memory};

/// What the command does in the state, and its answer.
fn outcome(
    alloc: Global,
    limits: &Limits,
    state: &SlowState,
    command: &Command,
) -> Result<SlowOutcome, Memory>
    requires { IsHistory (state_of state.now) limits.now }
    ensures { IfOk result (λ o. outcome_of o ≡ outcome limits.now (state_of state.now) command.now) }
{
    match command {
        Command::Edit { by, edit } => edit_outcome(alloc, limits, state, *by, edit),
        Command::Move {
            by,
            direction,
            path,
            choice,
        } => move_outcome(alloc, limits, state, *by, *direction, path, choice),
        Command::Lock { by, files } => lock_outcome(alloc, state, *by, files),
        Command::Unlock { by, files } => unlock_outcome(alloc, state, *by, files),
        Command::Leave { by } => leave_outcome(alloc, state, *by),
        Command::Outside { path, content } => outside_outcome(alloc, limits, state, path, content),
        Command::Forget { path } => forget_outcome(alloc, limits, state, path),
        Command::Look { path } => look_outcome(alloc, state, path),
    }
}

/// The state after effects of one command, which is the same where there are none.
fn recorded(alloc: Global, state: &SlowState, effects: &[Effect]) -> Result<SlowState, Memory>
    ensures { IfOk result (λ next. state_of next ≡ recorded (state_of state.now) effects.now) }
{
    if effects.is_empty() {
        return state.duplicate(alloc);
    }
    state_after(alloc, state, effects)
}

fn with(state: SlowState, locks: Locks) -> SlowState
    ensures { state_of result ≡ with_locks (Some locks.entries) (state_of state) }
{
    let SlowState {
        files,
        versions,
        records,
        next_id,
        serial,
        locks: _,
    } = state;
    SlowState {
        files,
        versions,
        records,
        next_id,
        serial,
        locks,
    }
}

/// The state with these locks, if any are given.
fn relocked(state: SlowState, locks: Option<Locks>) -> SlowState
    ensures { state_of result ≡ with_locks (entries_of locks) (state_of state) }
{
    match locks {
        Some(locks) => with(state, locks),
        None => state,
    }
}

/// What an outcome leaves of the state, and its answer.
fn left(
    alloc: Global,
    state: &SlowState,
    outcome: SlowOutcome,
) -> Result<(SlowState, Answer), Memory>
    ensures state { IfOk result (λ done. state_of done.0 ≡ left (state_of state.now) (outcome_of outcome)) }
    ensures answer { IfOk result (λ done. done.1 ≡ outcome.answer) }
{
    let SlowOutcome {
        effects,
        locks,
        answer,
    } = outcome;
    let next = recorded(alloc, state, effects.as_slice())?;
    Ok((relocked(next, locks), answer))
}

/// The state after the command, and its answer, as they are defined: over whole lists, with a copy of each for every effect.
/// The state that is left may be asked of again. What an edit does to the files is done in whole trees by `performed_slowly`.
pub fn stepped_slowly(
    alloc: Global,
    limits: &Limits,
    state: &SlowState,
    command: &Command,
) -> Result<(SlowState, Answer), Memory>
    requires { IsHistory (state_of state.now) limits.now }
    ensures state { IfOk result (λ done. state_of done.0 ≡ step limits.now (state_of state.now) command.now) }
    ensures answer { IfOk result (λ done. done.1 ≡ (outcome limits.now (state_of state.now) command.now).answer) }
    ensures kept { IfOk result (λ done. IsHistory (state_of done.0) limits.now) }
{
    outcomes_may_apply();
    let outcome = outcome(alloc, limits, state, command)?;
    left(alloc, state, outcome)
}
