// What forgetting a path's history does.
ghost use Rattle.std.specs.Prelude.{◌≡◌, [], ◌∷◌, IfOk};
ghost use Rattle.wse_element.specs.declared.effect.Effect.TheVariants.{Drop};
ghost use Rattle.wse_history.specs.Forgetting.{forget_outcome};
ghost use Rattle.wse_slow_history.specs.Slow.{state_of, outcome_of};

use crate::limits::next_state;
use crate::outcome::{SlowOutcome, records, stays};
use crate::state::SlowState;
use std::alloc::Global;
use wse_element::{Effect, PartState};
use wse_history::Answer;
use wse_path::{Duplicate, Limits, Memory, RelPath};
use wse_plain::is_live_at;

fn only_drop(alloc: Global, path: &RelPath) -> Result<Vec<Effect>, Memory>
    ensures { IfOk result (λ effects. effects.items ≡ Drop path.now PartState.Closed ∷ []) }
{
    let mut effects = Vec::with_capacity(alloc, 1)?;
    effects.push(Effect::Drop {
        path: path.duplicate(alloc)?,
        reason: PartState::Closed,
    })?;
    Ok(effects)
}

/// All live parts at the path are closed, if there are any.
pub(crate) fn forget_outcome(
    alloc: Global,
    limits: &Limits,
    state: &SlowState,
    path: &RelPath,
) -> Result<SlowOutcome, Memory>
    ensures { IfOk result (λ o. outcome_of o ≡ forget_outcome limits.now (state_of state.now) path.now) }
{
    if !is_live_at(state.records.as_slice(), path) {
        return Ok(stays(alloc, Answer::NothingThere));
    }
    let effects = only_drop(alloc, path)?;
    let (_, hit) = next_state(alloc, limits, state, effects.as_slice())?;
    match hit {
        Some(hit) => Ok(stays(alloc, Answer::Refused { hit })),
        None => Ok(records(effects, Answer::Forgotten)),
    }
}
