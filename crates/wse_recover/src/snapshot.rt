// What a journal's first record leaves.
ghost use Rattle.std.specs.Prelude.{◌≡◌, ◌<◌, ◌^◌, true, None, IfOk, IfSome};
ghost use Rattle.std.specs.FinMap.{is_sorted};
ghost use Rattle.wse_path.specs.Order.{path_cmp};
ghost use Rattle.wse_element.specs.Linked.{IsKeptLinked};
ghost use Rattle.wse_element.specs.Numbers.{are_some, are_versions_bounded, is_known_bounded};
ghost use Rattle.wse_codec.specs.Allowed.{IsAllowedState, numbers_of};
ghost use Rattle.wse_txn.specs.Replay.{kept_in};
ghost use Rattle.wse_recover.specs.Snapshot.{AreHeld, IsHeld};

use crate::bumps::MAX_KNOWN;
use std::alloc::Global;
use wse_codec::Snapshot;
use wse_path::{Bumps, Memory, Numbered, RelPath, Versions};
use wse_stacks::{Stacks, StacksRefused};

// The versions, unless one is greater than so many commands can have raised it to.
fn bounded(
    alloc: Global,
    versions: Bumps,
    serial: u64,
) -> Result<Option<Vec<(RelPath, u32)>>, Memory>
    requires small { serial < 2 ^ 30 }
    ensures all { IfOk result (λ o. IfSome o (λ all. all.items ≡ numbers_of versions)) }
    ensures bounded { IfOk result (λ o. IfSome o (λ all. are_versions_bounded serial (numbers_of versions) ≡ true)) }
    ensures none { IfOk result (λ o. o ≡ None → are_versions_bounded serial (numbers_of versions) ≡ true → ⊥) }
{
    let mut all = Vec::with_capacity(alloc, versions.len())?;
    for version in versions.into_vec() {
        let Numbered { path, number } = version;
        if u64::from(number) > 2 * serial + 1 {
            return Ok(None);
        }
        all.push((path, number))?;
    }
    Ok(Some(all))
}

// The versions in memory, unless they are out of their bounds.
fn held_versions(alloc: Global, versions: Bumps, serial: u64) -> Result<Option<Versions>, Memory>
    requires small { serial < 2 ^ 30 }
    requires rise { is_sorted path_cmp (numbers_of versions) ≡ true }
    requires some { are_some (numbers_of versions) ≡ true }
    ensures held { IfOk result (λ o. IfSome o (λ held. AreHeld serial (numbers_of versions) held.entries)) }
    ensures none { IfOk result (λ o. o ≡ None → are_versions_bounded serial (numbers_of versions) ≡ true → is_known_bounded (numbers_of versions) ≡ true → ⊥) }
{
    let Some(all) = bounded(alloc, versions, serial)? else {
        return Ok(None);
    };
    let mut held = Versions::new(alloc);
    held.reserve(all.len())?;
    held.bump_all(all);
    if held.known() > MAX_KNOWN {
        return Ok(None);
    }
    Ok(Some(held))
}

/// What the state keeps, in memory, unless it isn't linked or a number is out of its bounds.
pub(crate) fn held(alloc: Global, state: Snapshot) -> Result<Option<(Stacks, Versions)>, Memory>
    requires { IsAllowedState state }
    ensures held { IfOk result (λ o. IfSome o (λ both. IsHeld state both.0 both.1)) }
    ensures none { IfOk result (λ o. o ≡ None → IsKeptLinked (kept_in state) → ⊥) }
{
    let Snapshot {
        serial,
        next_id,
        versions,
        elements,
    } = state;
    let stacks = match Stacks::from_elements(alloc, elements, next_id, serial) {
        Ok(stacks) => stacks,
        Err(StacksRefused::NotLinked { .. }) => return Ok(None),
        Err(StacksRefused::Memory) => return Err(Memory),
    };
    match held_versions(alloc, versions, serial)? {
        Some(versions) => Ok(Some((stacks, versions))),
        None => Ok(None),
    }
}
