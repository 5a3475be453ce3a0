// What giving locks back does.
ghost use Rattle.std.specs.Prelude.{◌≡◌, IfOk};
ghost use Rattle.wse_history.specs.Unlocking.{unlock_outcome};
ghost use Rattle.wse_slow_history.specs.Slow.{state_of, outcome_of};

use crate::outcome::{SlowOutcome, locks_as, stays};
use crate::state::SlowState;
use std::alloc::Global;
use wse_history::Answer;
use wse_path::{Duplicate, Files, Memory};

/// All the paths are free, unless the participant doesn't hold one of them.
pub(crate) fn unlock_outcome(
    alloc: Global,
    state: &SlowState,
    by: u32,
    files: &Files,
) -> Result<SlowOutcome, Memory>
    ensures { IfOk result (λ o. outcome_of o ≡ unlock_outcome (state_of state.now) by files.now) }
{
    let mut locks = state.locks.duplicate(alloc)?;
    match locks.free(by, files.as_slice()) {
        Ok(()) => Ok(locks_as(alloc, locks, Answer::Freed)),
        Err(why) => {
            let file = files.as_slice()[why.index].duplicate(alloc)?;
            Ok(stays(alloc, Answer::NotHeld { file }))
        }
    }
}
