// The limits of the state that a command would leave.
ghost use Rattle.std.specs.Prelude.{◌≡◌, IfOk};
ghost use Rattle.std.specs.List.{list_any};
ghost use Rattle.wse_path.specs.Tree.{total_bytes};
ghost use Rattle.wse_element.specs.Applicable.{sets_tree};
ghost use Rattle.wse_element.specs.Effects.{state_after};
ghost use Rattle.wse_apply.specs.Limit.{hit_above, first_above, limit_hit};
ghost use Rattle.wse_history.specs.Edits.{edit_hit};
ghost use Rattle.wse_history.specs.Limits.{serial_hit, known_hit, weight_hit, hit_of};
ghost use Rattle.wse_slow_history.specs.Slow.{state_of};

use crate::after::state_after;
use crate::state::SlowState;
use std::alloc::Global;
use wse_element::Effect;
use wse_path::{Bytes, Hit, Limits, Memory, RelPath, Which};
use wse_plain::{known, sets_tree, weight};

fn hit_above(which: Which, limit: u64, number: u64) -> Option<Hit>
    ensures { result ≡ hit_above which limit number }
{
    if number > limit {
        return Some(Hit {
            which,
            would_be: number,
        });
    }
    None
}

fn serial_hit(limits: &Limits, state: &SlowState) -> Option<Hit>
    ensures { result ≡ serial_hit limits.now (state_of state.now) }
{
    hit_above(Which::Serial, limits.serial, state.serial)
}

fn known_hit(limits: &Limits, state: &SlowState) -> Option<Hit>
    ensures { result ≡ known_hit limits.now (state_of state.now) }
{
    hit_above(Which::Known, limits.known, known(state.versions.as_slice()))
}

fn weight_hit(limits: &Limits, state: &SlowState) -> Option<Hit>
    ensures { result ≡ weight_hit limits.now (state_of state.now) }
{
    hit_above(
        Which::Weight,
        limits.weight,
        weight(state.records.as_slice()),
    )
}

/// The bytes of the first file, in path order, that has more than these.
fn first_above(limit: u64, files: &[(RelPath, Bytes)]) -> Option<u64>
    ensures { result ≡ first_above limit files.now }
{
    for file in files {
        let bytes = file.1.len() as u64;
        if bytes > limit {
            return Some(bytes);
        }
    }
    None
}

/// The bytes of all files, or 2^64-1 where they are more.
fn total_bytes(files: &[(RelPath, Bytes)]) -> u64
    ensures { result ≡ total_bytes files.now }
{
    let mut total: u64 = 0;
    for file in files {
        total = total.saturating_add(file.1.len() as u64);
    }
    total
}

/// The first limit that the files pass: of the bytes of a file, of files, of the bytes of all files.
fn limit_hit(limits: &Limits, files: &[(RelPath, Bytes)]) -> Option<Hit>
    ensures { result ≡ limit_hit limits.now files.now }
{
    match first_above(limits.file_bytes, files) {
        Some(bytes) => Some(Hit {
            which: Which::FileBytes,
            would_be: bytes,
        }),
        None => hit_above(Which::Files, limits.files, files.len() as u64).or(hit_above(
            Which::TreeBytes,
            limits.tree_bytes,
            total_bytes(files),
        )),
    }
}

/// The first limit that the state to come passes, of an edit.
pub(crate) fn edit_hit(limits: &Limits, next: &SlowState) -> Option<Hit>
    ensures { result ≡ edit_hit limits.now (state_of next.now) }
{
    serial_hit(limits, next)
        .or(known_hit(limits, next))
        .or(weight_hit(limits, next))
}

fn any_sets_tree(effects: &[Effect]) -> bool
    ensures { result ≡ list_any sets_tree effects.now }
{
    effects.iter().any(|effect| sets_tree(effect))
}

/// The first limit that the state to come passes, of a command with these effects that isn't an edit.
fn hit_of(limits: &Limits, effects: &[Effect], next: &SlowState) -> Option<Hit>
    ensures { result ≡ hit_of limits.now effects.now (state_of next.now) }
{
    let hit = serial_hit(limits, next);
    if !any_sets_tree(effects) {
        return hit;
    }
    hit.or(known_hit(limits, next))
        .or(limit_hit(limits, next.files.as_slice()))
}

/// The state that these effects would leave, and the first limit that it passes, of a command that isn't an edit.
pub(crate) fn next_state(
    alloc: Global,
    limits: &Limits,
    state: &SlowState,
    effects: &[Effect],
) -> Result<(SlowState, Option<Hit>), Memory>
    ensures next { IfOk result (λ got. state_of got.0 ≡ state_after (state_of state.now) effects.now) }
    ensures hit { IfOk result (λ got. got.1 ≡ hit_of limits.now effects.now (state_after (state_of state.now) effects.now)) }
{
    let next = state_after(alloc, state, effects)?;
    let hit = hit_of(limits, effects, &next);
    Ok((next, hit))
}
