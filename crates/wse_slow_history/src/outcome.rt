// What a command does, and its answer.
ghost use Rattle.std.specs.Prelude.{◌≡◌, IfOk};
ghost use Rattle.wse_history.specs.Outcome.{stays, records, locks_as, numbered};
ghost use Rattle.wse_slow_history.specs.Slow.{state_of, outcome_of};

use crate::state::SlowState;
use std::alloc::Global;
use wse_element::Effect;
use wse_history::Answer;
use wse_locks::Locks;
use wse_path::{Bumps, Duplicate, Memory, Numbered, RelPath};
use wse_plain::version_of;

/// The effects that are recorded, none where nothing is; the locks where they change; and the answer.
#[derive(Drop)]
pub(crate) struct SlowOutcome {
    pub(crate) effects: Vec<Effect>,
    pub(crate) locks: Option<Locks>,
    pub(crate) answer: Answer,
}

/// Nothing changes.
pub(crate) fn stays(alloc: Global, answer: Answer) -> SlowOutcome
    ensures { outcome_of result ≡ stays answer }
{
    SlowOutcome {
        effects: Vec::new(alloc),
        locks: None,
        answer,
    }
}

/// These effects are recorded.
pub(crate) fn records(effects: Vec<Effect>, answer: Answer) -> SlowOutcome
    ensures { outcome_of result ≡ records effects.items answer }
{
    SlowOutcome {
        effects,
        locks: None,
        answer,
    }
}

/// Only the locks change.
pub(crate) fn locks_as(alloc: Global, locks: Locks, answer: Answer) -> SlowOutcome
    ensures { outcome_of result ≡ locks_as locks.entries answer }
{
    SlowOutcome {
        effects: Vec::new(alloc),
        locks: Some(locks),
        answer,
    }
}

/// The paths with their versions in the state.
pub(crate) fn numbered(alloc: Global, state: &SlowState, paths: &[RelPath]) -> Result<Bumps, Memory>
    ensures { IfOk result (λ all. all ≡ numbered (state_of state.now) paths.now) }
{
    let mut all = Vec::with_capacity(alloc, paths.len())?;
    for path in paths {
        all.push(Numbered {
            path: path.duplicate(alloc)?,
            number: version_of(state.versions.as_slice(), path),
        })?;
    }
    Ok(Bumps::new(all))
}
