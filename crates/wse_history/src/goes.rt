// What moving an element's parts is going to do.
ghost use Rattle.std.specs.Prelude.{◌≡◌, ◌∷◌, ◌++◌, [], map, is_some, flat_map, IfOk, OnOk};
ghost use Rattle.wse_path.specs.Changes.{change_to};
ghost use Rattle.wse_element.specs.declared.effect.Effect.{Effect};
ghost use Rattle.wse_history.specs.Done.{ones};
ghost use Rattle.wse_history.specs.Moves.{move_effect};
ghost use Rattle.wse_history.specs.Moving.{content_to, contents_to, paths_of, split_before, moved_effects, moved_outcome, MayMove};
ghost use Rattle.wse_history.specs.Outcome.{bump_each};
ghost use Rattle.wse_history.specs.Planning.{PlansAsOutcome, MayRecordIfAny};
ghost use Rattle.wse_element.specs.Way.{in_the_way};

use crate::answer::{Answer, MoveEnd, SplitNote};
use crate::asked::Asked;
use crate::changes::push_change;
use crate::history::History;
use crate::hits::set_hit;
use crate::planned::Planned;
use crate::plans::{records, stays};
use crate::versions::changed;
use crate::way::in_the_way;
use crate::written::tell_effects;
use std::alloc::Global;
use wse_element::{Effect, Part};
use wse_path::{
    Bumps, Bytes, Changes, Direction, Duplicate, Files, Memory, Numbered, RelPath, Tree,
};

/// What the part's path gets.
fn content_to(alloc: Global, direction: Direction, part: &Part) -> Result<Option<Bytes>, Memory>
    ensures { IfOk result (λ content. content ≡ content_to direction part.now) }
{
    match direction {
        Direction::Back => part.old_bytes(alloc),
        Direction::Forward => part.new_bytes(alloc),
    }
}

/// Whether the part's path gets a content.
fn comes_to(direction: Direction, part: &Part) -> bool
    ensures { result ≡ is_some (content_to direction part.now) }
{
    match direction {
        Direction::Back => part.had_file(),
        Direction::Forward => part.left_file(),
    }
}

/// The paths with whether each gets a content.
fn marks_to(
    alloc: Global,
    direction: Direction,
    parts: &[Part],
) -> Result<Vec<(RelPath, bool)>, Memory>
    ensures { IfOk result (λ marks. marks.items ≡ map (λ part. (part.path, is_some (content_to direction part))) parts.now) }
{
    let mut marks = Vec::with_capacity(alloc, parts.len())?;
    for part in parts {
        marks.push((part.path().duplicate(alloc)?, comes_to(direction, part)))?;
    }
    Ok(marks)
}

/// The files in the way of the parts, in path order.
fn blocking(
    alloc: Global,
    tree: &Tree,
    direction: Direction,
    parts: &[Part],
) -> Result<Files, Memory>
    ensures { IfOk result (λ files. files ≡ in_the_way tree.now.files (contents_to direction parts.now)) }
{
    let marks = marks_to(alloc, direction, parts)?;
    in_the_way(alloc, tree, marks.as_slice())
}

/// What the parts change in the tree.
fn changes_to(
    alloc: Global,
    tree: &Tree,
    direction: Direction,
    parts: &[Part],
) -> Result<Changes, Memory>
    ensures { IfOk result (λ changes. changes ≡ flat_map (change_to tree.now.files) (contents_to direction parts.now)) }
{
    let mut changes = Vec::with_capacity(alloc, parts.len())?;
    for part in parts {
        let content = content_to(alloc, direction, part)?;
        push_change(&mut changes, alloc, tree, part.path(), content)?;
    }
    Ok(Changes::new(changes))
}

/// The versions of the paths rise by one each.
fn rises_of(alloc: Global, parts: &[Part]) -> Result<Bumps, Memory>
    ensures { IfOk result (λ rises. rises ≡ ones (paths_of parts.now)) }
{
    let mut rises = Vec::with_capacity(alloc, parts.len())?;
    for part in parts {
        rises.push(Numbered {
            path: part.path().duplicate(alloc)?,
            number: 1,
        })?;
    }
    Ok(Bumps::new(rises))
}

/// The effect of the split, if one came.
pub(crate) fn split_before(
    alloc: Global,
    split: &Option<SplitNote>,
    next_id: u64,
) -> Result<Vec<Effect>, Memory>
    ensures { IfOk result (λ effects. effects.items ≡ split_before split.now next_id) }
{
    let mut effects = Vec::new(alloc);
    if let Some(note) = split {
        effects.push(Effect::Split {
            id: note.id,
            first: next_id,
        })?;
    }
    Ok(effects)
}

fn move_effect(direction: Direction, id: u64) -> Effect
    ensures { result ≡ move_effect direction id }
{
    match direction {
        Direction::Back => Effect::MoveBack { id },
        Direction::Forward => Effect::MoveForward { id },
    }
}

fn push_rises(effects: &mut Vec<Effect>, alloc: Global, parts: &[Part]) -> Result<(), Memory>
    ensures { OnOk result (effects.new.items ≡ effects.old.items ++ bump_each (paths_of parts.now)) }
{
    for part in parts {
        let path = part.path().duplicate(alloc)?;
        effects.push(Effect::Bump { path, by: 1 })?;
    }
    Ok(())
}

/// The split, if one came, then the element is moved, and the versions of its paths rise.
fn moved_effects(
    alloc: Global,
    history: &History,
    asked: &Asked,
    id: u64,
    parts: &[Part],
) -> Result<Vec<Effect>, Memory>
    ensures { IfOk result (λ effects. effects.items ≡ moved_effects history.now.state asked.now id parts.now) }
{
    let mut effects = split_before(alloc, &asked.split, history.stacks().next_id())?;
    effects.push(move_effect(asked.direction, id))?;
    push_rises(&mut effects, alloc, parts)?;
    Ok(effects)
}

/// The parts are moved where nothing is in the way.
fn plan_moved(
    alloc: Global,
    history: &History,
    asked: Asked,
    id: u64,
    parts: &[Part],
) -> Result<Planned, Memory>
    requires may { MayMove history.now.limits history.now.state asked id parts.now }
    requires free { in_the_way history.now.state.files (contents_to asked.direction parts.now) ≡ [] }
    ensures planned { IfOk result (PlansAsOutcome history.now.state (moved_outcome history.now.limits history.now.state asked id parts.now)) }
    ensures may { IfOk result (λ planned. MayRecordIfAny history.now.limits history.now.state planned.plan) }
{
    let _ = history.limits();
    let changes = changes_to(alloc, history.tree(), asked.direction, parts)?;
    let rises = rises_of(alloc, parts)?;
    let changed = changed(alloc, history, rises.as_slice())?;
    if let Some(hit) = set_hit(history, changed.as_slice(), changes.as_slice()) {
        let end = MoveEnd::Limit { id: asked.id, hit };
        return Ok(stays(alloc, Answer::Move { split: None, end }));
    }
    let effects = moved_effects(alloc, history, &asked, id, parts)?;
    tell_effects(effects.as_slice());
    let end = MoveEnd::Done { id, changed };
    let split = asked.split;
    Ok(records(effects, changes, Answer::Move { split, end }))
}

/// What moving the element with the id is going to do, which has these parts, and its answer.
pub(crate) fn plan_go(
    alloc: Global,
    history: &History,
    asked: Asked,
    id: u64,
    parts: &[Part],
) -> Result<Planned, Memory>
    requires { MayMove history.now.limits history.now.state asked id parts.now }
    ensures planned { IfOk result (PlansAsOutcome history.now.state (moved_outcome history.now.limits history.now.state asked id parts.now)) }
    ensures may { IfOk result (λ planned. MayRecordIfAny history.now.limits history.now.state planned.plan) }
{
    let files = blocking(alloc, history.tree(), asked.direction, parts)?;
    if !files.is_empty() {
        let end = MoveEnd::InTheWay {
            id: asked.id,
            files,
        };
        return Ok(stays(alloc, Answer::Move { split: None, end }));
    }
    plan_moved(alloc, history, asked, id, parts)
}
