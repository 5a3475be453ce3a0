// What the report of a change by another program is going to do.
ghost use Rattle.std.specs.Prelude.{◌≡◌, false, [], ◌∷◌, ◌++◌, IfOk};
ghost use Rattle.wse_path.specs.Tree.{content};
ghost use Rattle.wse_path.specs.Changes.{is_same, change_to};
ghost use Rattle.wse_history.specs.Done.{ones};
ghost use Rattle.wse_history.specs.Outsides.{outside_effects, outside_outcome};
ghost use Rattle.wse_history.specs.Planning.{PlansAsOutcome, MayRecordIfAny};
ghost use Rattle.wse_element.specs.Way.{in_the_way};

use crate::answer::Answer;
use crate::changes::{is_same, push_change};
use crate::history::History;
use crate::hits::set_hit;
use crate::planned::Planned;
use crate::plans::{records, stays};
use crate::versions::changed;
use crate::way::in_the_way;
use crate::written::tell_effects;
use std::alloc::Global;
use wse_element::Effect;
use wse_path::{Bumps, Bytes, Changes, Duplicate, Files, Memory, Numbered, RelPath, Tree};
use wse_stacks::Stacks;

/// The files above or under the path, if it gets a content, in path order.
fn blocking(
    alloc: Global,
    tree: &Tree,
    path: &RelPath,
    bytes: &Option<Bytes>,
) -> Result<Files, Memory>
    ensures { IfOk result (λ files. files ≡ in_the_way tree.now.files ((path.now, bytes.now) ∷ [])) }
{
    let mut marks = Vec::with_capacity(alloc, 1)?;
    marks.push((path.duplicate(alloc)?, bytes.is_some()))?;
    in_the_way(alloc, tree, marks.as_slice())
}

fn one_rise(alloc: Global, path: &RelPath) -> Result<Bumps, Memory>
    ensures { IfOk result (λ rises. rises ≡ ones (path.now ∷ [])) }
{
    let mut rises = Vec::with_capacity(alloc, 1)?;
    rises.push(Numbered {
        path: path.duplicate(alloc)?,
        number: 1,
    })?;
    Ok(Bumps::new(rises))
}

fn change_at(
    alloc: Global,
    tree: &Tree,
    path: &RelPath,
    bytes: &Option<Bytes>,
) -> Result<Changes, Memory>
    ensures { IfOk result (λ changes. changes ≡ change_to tree.now.files (path.now, bytes.now)) }
{
    let mut changes = Vec::new(alloc);
    push_change(&mut changes, alloc, tree, path, bytes.duplicate(alloc)?)?;
    Ok(Changes::new(changes))
}

/// What is known of the path is no longer valid, if something was; the path has this content, and its version rises.
fn effects_at(
    alloc: Global,
    stacks: &Stacks,
    path: &RelPath,
    bytes: &Option<Bytes>,
) -> Result<Vec<Effect>, Memory>
    ensures { IfOk result (λ effects. effects.items ≡ outside_effects stacks.now.state.records path.now bytes.now) }
{
    let mut effects = Vec::new(alloc);
    if stacks.is_valid_at(path) {
        effects.push(Effect::Invalidate {
            path: path.duplicate(alloc)?,
        })?;
    }
    effects.push(Effect::Set {
        path: path.duplicate(alloc)?,
        content: bytes.duplicate(alloc)?,
    })?;
    effects.push(Effect::Bump {
        path: path.duplicate(alloc)?,
        by: 1,
    })?;
    Ok(effects)
}

/// The report of another content, where no file is in its way.
fn plan_set(
    alloc: Global,
    history: &History,
    path: &RelPath,
    bytes: &Option<Bytes>,
) -> Result<Planned, Memory>
    requires differs { is_same (content history.now.state.files path.now) bytes.now ≡ false }
    requires free { in_the_way history.now.state.files ((path.now, bytes.now) ∷ []) ≡ [] }
    ensures planned { IfOk result (PlansAsOutcome history.now.state (outside_outcome history.now.limits history.now.state path.now bytes.now)) }
    ensures may { IfOk result (λ planned. MayRecordIfAny history.now.limits history.now.state planned.plan) }
{
    let _ = history.limits();
    let changes = change_at(alloc, history.tree(), path, bytes)?;
    let rises = one_rise(alloc, path)?;
    let changed = changed(alloc, history, rises.as_slice())?;
    if let Some(hit) = set_hit(history, changed.as_slice(), changes.as_slice()) {
        return Ok(stays(alloc, Answer::Refused { hit }));
    }
    let effects = effects_at(alloc, history.stacks(), path, bytes)?;
    tell_effects(effects.as_slice());
    Ok(records(effects, changes, Answer::Recorded { changed }))
}

/// What the report that the path has this content is going to do, and its answer. Locks don't matter.
pub(crate) fn plan_outside(
    alloc: Global,
    history: &History,
    path: &RelPath,
    bytes: &Option<Bytes>,
) -> Result<Planned, Memory>
    ensures planned { IfOk result (PlansAsOutcome history.now.state (outside_outcome history.now.limits history.now.state path.now bytes.now)) }
    ensures may { IfOk result (λ planned. MayRecordIfAny history.now.limits history.now.state planned.plan) }
{
    let tree = history.tree();
    if is_same(tree.get(path), bytes) {
        return Ok(stays(alloc, Answer::Same));
    }
    let files = blocking(alloc, tree, path, bytes)?;
    if !files.is_empty() {
        return Ok(stays(alloc, Answer::OutsideInTheWay { files }));
    }
    plan_set(alloc, history, path, bytes)
}
