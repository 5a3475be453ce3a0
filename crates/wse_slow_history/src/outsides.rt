// What the report of a change by another program does.
ghost use Rattle.std.specs.Prelude.{◌≡◌, [], ◌∷◌, IfOk};
ghost use Rattle.std.specs.Option.{option_copied};
ghost use Rattle.wse_path.specs.Changes.{is_same};
ghost use Rattle.wse_element.specs.Way.{in_the_way};
ghost use Rattle.wse_history.specs.Outsides.{outside_effects, outside_outcome};
ghost use Rattle.wse_history.specs.Outcome.{numbered};
ghost use Rattle.wse_slow_history.specs.Slow.{state_of, outcome_of};

use crate::limits::next_state;
use crate::outcome::{SlowOutcome, numbered, records, stays};
use crate::state::SlowState;
use crate::way::in_the_way;
use std::alloc::Global;
use wse_element::{Effect, Element};
use wse_history::Answer;
use wse_path::{Bumps, Bytes, Duplicate, Files, Limits, Memory, RelPath};
use wse_plain::{is_valid_at, value_at};

/// Whether both are the same content, absence included.
fn is_same(now: Option<&Bytes>, content: &Option<Bytes>) -> bool
    ensures { result ≡ is_same (option_copied now.entry) content.now }
{
    match (now, content) {
        (None, None) => true,
        (Some(now), Some(content)) => now.as_slice() == content.as_slice(),
        _ => false,
    }
}

/// The files above or under the path, if it gets a content, in path order.
fn blocking(
    alloc: Global,
    files: &[(RelPath, Bytes)],
    path: &RelPath,
    bytes: &Option<Bytes>,
) -> Result<Files, Memory>
    ensures { IfOk result (λ paths. paths ≡ in_the_way files.now ((path.now, bytes.now) ∷ [])) }
{
    let mut contents = Vec::with_capacity(alloc, 1)?;
    contents.push((path.duplicate(alloc)?, bytes.duplicate(alloc)?))?;
    in_the_way(alloc, files, contents.as_slice())
}

/// What is known of the path is no longer valid, if something was; the path has this content, and its version rises.
fn outside_effects(
    alloc: Global,
    elements: &[Element],
    path: &RelPath,
    bytes: &Option<Bytes>,
) -> Result<Vec<Effect>, Memory>
    ensures { IfOk result (λ effects. effects.items ≡ outside_effects elements.now path.now bytes.now) }
{
    let mut effects = Vec::new(alloc);
    if is_valid_at(elements, path) {
        effects.push(Effect::Invalidate {
            path: path.duplicate(alloc)?,
        })?;
    }
    effects.push(Effect::Set {
        path: path.duplicate(alloc)?,
        content: bytes.duplicate(alloc)?,
    })?;
    effects.push(Effect::Bump {
        path: path.duplicate(alloc)?,
        by: 1,
    })?;
    Ok(effects)
}

/// The path with its version in the state.
fn only_numbered(alloc: Global, state: &SlowState, path: &RelPath) -> Result<Bumps, Memory>
    ensures { IfOk result (λ all. all ≡ numbered (state_of state.now) (path.now ∷ [])) }
{
    let mut paths = Vec::with_capacity(alloc, 1)?;
    paths.push(path.duplicate(alloc)?)?;
    numbered(alloc, state, paths.as_slice())
}

/// The path has this content now, as another program made it. Locks don't matter.
pub(crate) fn outside_outcome(
    alloc: Global,
    limits: &Limits,
    state: &SlowState,
    path: &RelPath,
    bytes: &Option<Bytes>,
) -> Result<SlowOutcome, Memory>
    ensures { IfOk result (λ o. outcome_of o ≡ outside_outcome limits.now (state_of state.now) path.now bytes.now) }
{
    if is_same(value_at(state.files.as_slice(), path), bytes) {
        return Ok(stays(alloc, Answer::Same));
    }
    let files = blocking(alloc, state.files.as_slice(), path, bytes)?;
    if !files.is_empty() {
        return Ok(stays(alloc, Answer::OutsideInTheWay { files }));
    }
    let effects = outside_effects(alloc, state.records.as_slice(), path, bytes)?;
    let (next, hit) = next_state(alloc, limits, state, effects.as_slice())?;
    match hit {
        Some(hit) => Ok(stays(alloc, Answer::Refused { hit })),
        None => {
            let changed = only_numbered(alloc, &next, path)?;
            Ok(records(effects, Answer::Recorded { changed }))
        }
    }
}
