// What effects leave of a whole state.
ghost use Rattle.std.specs.Prelude.{◌≡◌, ◌+◌, IfOk};
ghost use Rattle.wse_path.specs.Versions.{bumped};
ghost use Rattle.wse_element.specs.Effects.{records_after, versions_after, state_after};
ghost use Rattle.wse_slow_history.specs.Slow.{state_of};
ghost use Rattle.wse_slow_history.specs.After.{after_effect, after_effects};

use crate::state::SlowState;
use std::alloc::Global;
use wse_element::{Effect, Element};
use wse_path::{Duplicate, Memory, RelPath};
use wse_plain::{bumped, contents_set, ids_taken, set_files, version_of};

/// The sum. It is refused as want of memory where it passes 64 bits, which would take more commands than memory holds.
fn sum(one: u64, other: u64) -> Result<u64, Memory>
    ensures { IfOk result (λ n. n ≡ one + other) }
{
    match one.checked_add(other) {
        Some(sum) => Ok(sum),
        None => Err(Memory),
    }
}

/// The elements after the effect. A split whose first id is 2^63 or more is refused as want of memory; no store comes to it.
pub(crate) fn records_after(
    alloc: Global,
    records: &[Element],
    effect: &Effect,
) -> Result<Vec<Element>, Memory>
    ensures { IfOk result (λ all. all.items ≡ records_after records.now effect.now) }
{
    if let Effect::Split { first, .. } = effect {
        if *first >= 1 << 63 {
            return Err(Memory);
        }
    }
    wse_plain::records_after(alloc, records, effect)
}

/// The versions with the path's raised. It is refused as want of memory where it passes 32 bits; no store comes to it.
fn raised(
    alloc: Global,
    versions: Vec<(RelPath, u32)>,
    path: &RelPath,
    by: u32,
) -> Result<Vec<(RelPath, u32)>, Memory>
    ensures { IfOk result (λ all. all.items ≡ bumped versions.items path.now by) }
{
    if by > u32::MAX - version_of(versions.as_slice(), path) {
        return Err(Memory);
    }
    bumped(versions, path.duplicate(alloc)?, by)
}

fn versions_after(
    alloc: Global,
    versions: Vec<(RelPath, u32)>,
    effect: &Effect,
) -> Result<Vec<(RelPath, u32)>, Memory>
    ensures { IfOk result (λ all. all.items ≡ versions_after versions.items effect.now) }
{
    match effect {
        Effect::Bump { path, by } => raised(alloc, versions, path, *by),
        _ => Ok(versions),
    }
}

/// The state after one effect.
fn after_effect(alloc: Global, state: SlowState, effect: &Effect) -> Result<SlowState, Memory>
    ensures { IfOk result (λ next. state_of next ≡ after_effect (state_of state) effect.now) }
{
    let contents = contents_set(alloc, state.records.as_slice(), effect)?;
    let taken = ids_taken(state.records.as_slice(), effect);
    let after = records_after(alloc, state.records.as_slice(), effect)?;
    let SlowState {
        files,
        versions,
        records: _,
        next_id,
        serial,
        locks,
    } = state;
    Ok(SlowState {
        files: set_files(contents, files)?,
        versions: versions_after(alloc, versions, effect)?,
        records: after,
        next_id: sum(next_id, taken)?,
        serial,
        locks,
    })
}

/// The state after one effect after another.
fn after_effects(alloc: Global, state: SlowState, effects: &[Effect]) -> Result<SlowState, Memory>
    ensures { IfOk result (λ last. state_of last ≡ after_effects (state_of state) effects.now) }
{
    let mut last = state;
    for effect in effects {
        last = after_effect(alloc, last, effect)?;
    }
    Ok(last)
}

/// The state after the effects of one command.
pub(crate) fn state_after(
    alloc: Global,
    state: &SlowState,
    effects: &[Effect],
) -> Result<SlowState, Memory>
    ensures { IfOk result (λ next. state_of next ≡ state_after (state_of state.now) effects.now) }
{
    let mut begun = state.duplicate(alloc)?;
    begun.serial = sum(begun.serial, 1)?;
    after_effects(alloc, begun, effects)
}
