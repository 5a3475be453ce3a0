// The versions that a record's effects leave.
ghost use Rattle.std.specs.Prelude.{◌≡◌, ◌^◌, ◌<◌, true, IfOk};
ghost use Rattle.std.specs.List.{All};
ghost use Rattle.wse_element.specs.declared.effect.Effect.TheVariants.{Bump};
ghost use Rattle.wse_element.specs.Numbers.{are_versions_bounded, is_known_bounded};
ghost use Rattle.wse_element.specs.Applicable.{keeps_versions};
ghost use Rattle.wse_element.specs.Effects.{versions_after, versions_after_each};
ghost use Rattle.wse_path.specs.Versions.{bumped};
ghost use Rattle.wse_codec.specs.Allowed.{IsAllowedEffect, IsRise};
ghost use Rattle.wse_recover.specs.Keeps.{may_rise, all_keep};

use std::alloc::Global;
use wse_element::Effect;
use wse_path::{Duplicate, Memory, RelPath, Versions};

// LSP 3.17's "integer", and what all paths with a version count for at most.
const MAX_VERSION: u64 = (1 << 31) - 1;

pub(crate) const MAX_KNOWN: u64 = 1 << 29;

// Whether the path's version may rise by so much, where this is the serial number that counts.
fn may_rise(versions: &Versions, path: &RelPath, by: u32, serial: u64) -> bool
    requires small { serial < 2 ^ 31 }
    requires bounded { are_versions_bounded serial versions.now.entries ≡ true }
    ensures { result ≡ may_rise serial versions.now.entries path.now by }
{
    let number = u64::from(versions.get(path)) + u64::from(by);
    number <= MAX_VERSION && number <= 2 * serial + 1
}

// Raises the path's version, and answers whether the versions are within their bounds then.
fn raise(
    alloc: Global,
    versions: &mut Versions,
    path: &RelPath,
    by: u32,
    serial: u64,
) -> Result<bool, Memory>
    requires rise { IsRise by }
    requires small { serial < 2 ^ 31 }
    requires bounded { are_versions_bounded serial versions.old.entries ≡ true }
    ensures is { IfOk result (λ is. is ≡ keeps_versions serial versions.old.entries (Bump path.now by)) }
    ensures after { IfOk result (λ is. is ≡ true → versions.new.entries ≡ bumped versions.old.entries path.now by) }
{
    if !may_rise(versions, path, by, serial) {
        return Ok(false);
    }
    versions.reserve(1)?;
    versions.bump(path.duplicate(alloc)?, by);
    Ok(versions.known() <= MAX_KNOWN)
}

// Makes the versions what the effect leaves, and answers whether they are within their bounds then.
fn raise_by(
    alloc: Global,
    versions: &mut Versions,
    effect: &Effect,
    serial: u64,
) -> Result<bool, Memory>
    requires allowed { IsAllowedEffect effect.now }
    requires small { serial < 2 ^ 31 }
    requires bounded { are_versions_bounded serial versions.old.entries ≡ true }
    requires known { is_known_bounded versions.old.entries ≡ true }
    ensures is { IfOk result (λ is. is ≡ keeps_versions serial versions.old.entries effect.now) }
    ensures after { IfOk result (λ is. is ≡ true → versions.new.entries ≡ versions_after versions.old.entries effect.now) }
{
    match effect {
        Effect::Bump { path, by } => raise(alloc, versions, path, *by, serial),
        _ => Ok(true),
    }
}

/// Makes the versions what the effects leave, where this is the serial number that counts, and answers whether each of them
/// keeps them within their bounds.
pub(crate) fn raise_each(
    alloc: Global,
    versions: &mut Versions,
    effects: &[Effect],
    serial: u64,
) -> Result<bool, Memory>
    requires allowed { All IsAllowedEffect effects.now }
    requires small { serial < 2 ^ 31 }
    requires bounded { are_versions_bounded serial versions.old.entries ≡ true }
    requires known { is_known_bounded versions.old.entries ≡ true }
    ensures is { IfOk result (λ is. is ≡ all_keep serial versions.old.entries effects.now) }
    ensures after { IfOk result (λ is. is ≡ true → versions.new.entries ≡ versions_after_each versions.old.entries effects.now) }
    ensures bounded { IfOk result (λ is. is ≡ true → are_versions_bounded serial versions.new.entries ≡ true) }
    ensures known { IfOk result (λ is. is ≡ true → is_known_bounded versions.new.entries ≡ true) }
{
    for at in 0..effects.len() {
        if !raise_by(alloc, versions, &effects[at], serial)? {
            return Ok(false);
        }
    }
    Ok(true)
}
