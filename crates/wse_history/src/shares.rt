// What commands on locks are going to do.
ghost use Rattle.std.specs.Prelude.{IfOk};
ghost use Rattle.wse_history.specs.Planning.{PlansAsOutcome, MayRecordIfAny};
ghost use Rattle.wse_history.specs.Locking.{lock_outcome};
ghost use Rattle.wse_history.specs.Unlocking.{unlock_outcome};
ghost use Rattle.wse_history.specs.Leaving.{leave_outcome};

use crate::answer::Answer;
use crate::history::History;
use crate::planned::Planned;
use crate::plans::{locks_as, stays};
use std::alloc::Global;
use wse_locks::LockRefused;
use wse_path::{Duplicate, Files, Memory};

/// What taking these files is going to do, and its answer.
pub(crate) fn plan_lock(
    alloc: Global,
    history: &History,
    by: u32,
    files: &Files,
) -> Result<Planned, Memory>
    ensures planned { IfOk result (PlansAsOutcome history.now.state (lock_outcome history.now.state by files.now)) }
    ensures may { IfOk result (λ planned. MayRecordIfAny history.now.limits history.now.state planned.plan) }
{
    let mut locks = history.locks().duplicate(alloc)?;
    match locks.take(alloc, by, files.as_slice()) {
        Ok(()) => Ok(locks_as(alloc, locks, Answer::Taken)),
        Err(LockRefused::Held { files }) => Ok(stays(alloc, Answer::Held { files })),
        Err(LockRefused::Memory) => Err(Memory),
    }
}

/// What freeing these files is going to do, and its answer.
pub(crate) fn plan_unlock(
    alloc: Global,
    history: &History,
    by: u32,
    files: &Files,
) -> Result<Planned, Memory>
    ensures planned { IfOk result (PlansAsOutcome history.now.state (unlock_outcome history.now.state by files.now)) }
    ensures may { IfOk result (λ planned. MayRecordIfAny history.now.limits history.now.state planned.plan) }
{
    let mut locks = history.locks().duplicate(alloc)?;
    match locks.free(by, files.as_slice()) {
        Ok(()) => Ok(locks_as(alloc, locks, Answer::Freed)),
        Err(why) => {
            let file = files.as_slice()[why.index].duplicate(alloc)?;
            Ok(stays(alloc, Answer::NotHeld { file }))
        }
    }
}

/// What freeing all that the participant holds is going to do, and its answer.
pub(crate) fn plan_leave(alloc: Global, history: &History, by: u32) -> Result<Planned, Memory>
    ensures planned { IfOk result (PlansAsOutcome history.now.state (leave_outcome history.now.state by)) }
    ensures may { IfOk result (λ planned. MayRecordIfAny history.now.limits history.now.state planned.plan) }
{
    let mut locks = history.locks().duplicate(alloc)?;
    locks.leave(by);
    Ok(locks_as(alloc, locks, Answer::Left))
}
