// Plans as outcomes have them.
ghost use Rattle.std.specs.Prelude.{◌≡◌, []};
ghost use Rattle.wse_path.specs.declared.limits.Limits.{Limits};
ghost use Rattle.wse_element.specs.State.{State};
ghost use Rattle.wse_history.specs.Outcome.{stays, locks_as};
ghost use Rattle.wse_history.specs.Planning.{PlansAsOutcome, MayRecordIfAny};
ghost use Rattle.wse_history.specs.Plain.{unrecorded, relocked, recorded_with};

use crate::answer::Answer;
use crate::planned::Planned;
use std::alloc::Global;
use wse_element::{Effect, Effects, Plan};
use wse_locks::Locks;
use wse_path::Changes;

fn nothing(alloc: Global) -> Plan
    ensures { result ≡ record { effects = []; changes = [] } }
{
    Plan {
        effects: Effects::new(Vec::new(alloc)),
        changes: Changes::new(Vec::new(alloc)),
    }
}

fn unrecorded(alloc: Global, answer: Answer) -> Planned
    ensures { result ≡ unrecorded answer }
{
    Planned {
        plan: nothing(alloc),
        locks: None,
        answer,
    }
}

fn relocked(alloc: Global, locks: Locks, answer: Answer) -> Planned
    ensures { result ≡ relocked locks answer }
{
    Planned {
        plan: nothing(alloc),
        locks: Some(locks),
        answer,
    }
}

/// Nothing changes. Takes no memory.
pub(crate) fn stays(alloc: Global, answer: Answer) -> Planned
    ensures planned { (s : State) → PlansAsOutcome s (stays answer) result }
    ensures may { (limits : Limits) (s : State) → MayRecordIfAny limits s result.plan }
{
    unrecorded(alloc, answer)
}

/// Only the locks change. Takes no memory.
pub(crate) fn locks_as(alloc: Global, locks: Locks, answer: Answer) -> Planned
    ensures planned { (s : State) → PlansAsOutcome s (locks_as locks.entries answer) result }
    ensures may { (limits : Limits) (s : State) → MayRecordIfAny limits s result.plan }
{
    relocked(alloc, locks, answer)
}

/// The effects are recorded, which make these changes in the tree. Takes no memory.
pub(crate) fn records(effects: Vec<Effect>, changes: Changes, answer: Answer) -> Planned
    ensures { result ≡ recorded_with effects.items changes answer }
{
    Planned {
        plan: Plan {
            effects: Effects::new(effects),
            changes,
        },
        locks: None,
        answer,
    }
}
