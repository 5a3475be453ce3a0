// What a participant that leaves does.
ghost use Rattle.std.specs.Prelude.{◌≡◌, IfOk};
ghost use Rattle.wse_history.specs.Leaving.{leave_outcome};
ghost use Rattle.wse_slow_history.specs.Slow.{state_of, outcome_of};

use crate::outcome::{SlowOutcome, locks_as};
use crate::state::SlowState;
use std::alloc::Global;
use wse_history::Answer;
use wse_path::Memory;

/// The participant holds no path any more.
pub(crate) fn leave_outcome(
    alloc: Global,
    state: &SlowState,
    by: u32,
) -> Result<SlowOutcome, Memory>
    ensures { IfOk result (λ o. outcome_of o ≡ leave_outcome (state_of state.now) by) }
{
    let mut locks = state.locks.duplicate(alloc)?;
    locks.leave(by);
    Ok(locks_as(alloc, locks, Answer::Left))
}
