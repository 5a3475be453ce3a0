// What taking locks does.
ghost use Rattle.std.specs.Prelude.{◌≡◌, IfOk};
ghost use Rattle.wse_history.specs.Locking.{lock_outcome};
ghost use Rattle.wse_slow_history.specs.Slow.{state_of, outcome_of};

use crate::outcome::{SlowOutcome, locks_as, stays};
use crate::state::SlowState;
use std::alloc::Global;
use wse_history::Answer;
use wse_locks::LockRefused;
use wse_path::{Files, Memory};

/// All the paths are given to the participant, unless others hold some of them.
pub(crate) fn lock_outcome(
    alloc: Global,
    state: &SlowState,
    by: u32,
    files: &Files,
) -> Result<SlowOutcome, Memory>
    ensures { IfOk result (λ o. outcome_of o ≡ lock_outcome (state_of state.now) by files.now) }
{
    let mut locks = state.locks.duplicate(alloc)?;
    match locks.take(alloc, by, files.as_slice()) {
        Ok(()) => Ok(locks_as(alloc, locks, Answer::Taken)),
        Err(LockRefused::Held { files }) => Ok(stays(alloc, Answer::Held { files })),
        Err(LockRefused::Memory) => Err(Memory),
    }
}
