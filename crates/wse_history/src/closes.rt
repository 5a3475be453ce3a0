// What an undo or a redo that moves nothing is going to do.
ghost use Rattle.std.specs.Prelude.{◌≡◌, ◌∷◌, ◌++◌, [], map, OnOk, IfOk};
ghost use Rattle.wse_history.specs.Moving.{closings, closed_effects, closed_outcome, MayClose};
ghost use Rattle.wse_history.specs.Planning.{PlansAsOutcome, MayRecordIfAny};

use crate::answer::{Answer, MoveEnd};
use crate::asked::Asked;
use crate::goes::split_before;
use crate::history::History;
use crate::hits::serial_hit;
use crate::planned::Planned;
use crate::plans::{records, stays};
use crate::written::tell_effects;
use std::alloc::Global;
use wse_element::{Effect, PartState};
use wse_path::{Changes, Duplicate, Memory, RelPath};

fn push_closings(effects: &mut Vec<Effect>, alloc: Global, paths: &[RelPath]) -> Result<(), Memory>
    ensures { OnOk result (effects.new.items ≡ effects.old.items ++ closings paths.now) }
{
    for path in paths {
        let path = path.duplicate(alloc)?;
        effects.push(Effect::Drop {
            path,
            reason: PartState::Closed,
        })?;
    }
    Ok(())
}

/// The split, if one came, then all live parts at the paths are closed.
fn closed_effects(
    alloc: Global,
    history: &History,
    asked: &Asked,
    paths: &[RelPath],
) -> Result<Vec<Effect>, Memory>
    ensures { IfOk result (λ effects. effects.items ≡ closed_effects history.now.state asked.now paths.now) }
{
    let mut effects = split_before(alloc, &asked.split, history.stacks().next_id())?;
    push_closings(&mut effects, alloc, paths)?;
    Ok(effects)
}

/// What an undo or a redo is going to do that closes all live parts at the paths, if any, and ends so.
pub(crate) fn plan_closed(
    alloc: Global,
    history: &History,
    asked: Asked,
    paths: &[RelPath],
    end: MoveEnd,
) -> Result<Planned, Memory>
    requires { MayClose history.now.limits history.now.state asked paths.now }
    ensures planned { IfOk result (PlansAsOutcome history.now.state (closed_outcome history.now.limits history.now.state asked paths.now end)) }
    ensures may { IfOk result (λ planned. MayRecordIfAny history.now.limits history.now.state planned.plan) }
{
    let _ = history.limits();
    if let Some(hit) = serial_hit(history) {
        let end = MoveEnd::Limit { id: asked.id, hit };
        return Ok(stays(alloc, Answer::Move { split: None, end }));
    }
    let effects = closed_effects(alloc, history, &asked, paths)?;
    tell_effects(effects.as_slice());
    let changes = Changes::new(Vec::new(alloc));
    let split = asked.split;
    Ok(records(effects, changes, Answer::Move { split, end }))
}
