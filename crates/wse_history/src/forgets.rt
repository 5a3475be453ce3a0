// What forgetting a path's history is going to do.
ghost use Rattle.std.specs.Prelude.{◌≡◌, [], ◌∷◌, IfOk};
ghost use Rattle.std.specs.List.{list_any};
ghost use Rattle.wse_element.specs.declared.effect.Effect.TheVariants.{Drop};
ghost use Rattle.wse_element.specs.Live.{is_live_at};
ghost use Rattle.wse_history.specs.Forgetting.{forget_outcome};
ghost use Rattle.wse_history.specs.Planning.{PlansAsOutcome, MayRecordIfAny};

use crate::answer::Answer;
use crate::history::History;
use crate::hits::serial_hit;
use crate::planned::Planned;
use crate::plans::{records, stays};
use crate::written::tell_effects;
use std::alloc::Global;
use wse_element::{Effect, PartState};
use wse_path::{Changes, Duplicate, Memory, RelPath};
use wse_stacks::Stacks;

/// Whether an element is live at the path. Takes no memory.
pub(crate) fn is_live_at(stacks: &Stacks, path: &RelPath) -> bool
    ensures { result ≡ list_any (is_live_at path.now) stacks.now.state.records }
{
    stacks.closest_past(path).is_some() || stacks.closest_future(path).is_some()
}

/// All live parts at the path are closed.
fn drop_at(alloc: Global, path: &RelPath) -> Result<Vec<Effect>, Memory>
    ensures { IfOk result (λ effects. effects.items ≡ Drop path.now PartState.Closed ∷ []) }
{
    let mut effects = Vec::with_capacity(alloc, 1)?;
    effects.push(Effect::Drop {
        path: path.duplicate(alloc)?,
        reason: PartState::Closed,
    })?;
    Ok(effects)
}

/// What forgetting the path's history is going to do, and its answer.
pub(crate) fn plan_forget(
    alloc: Global,
    history: &History,
    path: &RelPath,
) -> Result<Planned, Memory>
    ensures planned { IfOk result (PlansAsOutcome history.now.state (forget_outcome history.now.limits history.now.state path.now)) }
    ensures may { IfOk result (λ planned. MayRecordIfAny history.now.limits history.now.state planned.plan) }
{
    if !is_live_at(history.stacks(), path) {
        return Ok(stays(alloc, Answer::NothingThere));
    }
    if let Some(hit) = serial_hit(history) {
        return Ok(stays(alloc, Answer::Refused { hit }));
    }
    let effects = drop_at(alloc, path)?;
    tell_effects(effects.as_slice());
    let _ = history.limits();
    Ok(records(effects, Changes::new(Vec::new(alloc)), Answer::Forgotten))
}
