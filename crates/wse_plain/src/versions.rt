// Versions as a list of entries.
ghost use Rattle.std.specs.Prelude.{◌≡◌, ◌+◌, ◌<◌, ◌^◌, true, IfOk};
ghost use Rattle.wse_path.specs.Versions.{version_of, bumped, known};
ghost use Rattle.wse_element.specs.Numbers.{are_versions_bounded, is_known_bounded};
ghost use Rattle.wse_element.specs.Applicable.{may_bump};
ghost use Rattle.wse_element.specs.Effects.{versions_after};

use crate::entries::{put, value_at};
use std::alloc::Global;
use wse_element::Effect;
use wse_path::{Duplicate, Memory, RelPath};

/// Paths with their versions.
pub type Numbers = Vec<(RelPath, u32)>;

/// The version of the path: 0 where it has no entry. Takes no memory.
pub fn version_of(versions: &[(RelPath, u32)], path: &RelPath) -> u32
    ensures { result ≡ version_of versions.now path.now }
{
    value_at(versions, path).copied().unwrap_or(0)
}

/// The versions with the path's raised.
pub fn bumped(versions: Numbers, path: RelPath, by: u32) -> Result<Numbers, Memory>
    requires { version_of versions.items path + by < 2 ^ 32 }
    ensures { IfOk result (λ all. all.items ≡ bumped versions.items path by) }
{
    let number = version_of(&versions, &path) + by;
    put(versions, path, number)
}

/// What the versions count for: for each path 32, and the bytes of its text, or 2^64-1 where that is more. Takes no memory.
pub fn known(versions: &[(RelPath, u32)]) -> u64
    ensures { result ≡ known versions.now }
{
    let mut sum: u64 = 0;
    for entry in versions {
        sum = sum.saturating_add(32 + entry.0.text_len() as u64);
    }
    sum
}

/// Whether they count for no more than 2^29. Takes no memory.
pub fn is_known_bounded(versions: &[(RelPath, u32)]) -> bool
    ensures { result ≡ is_known_bounded versions.now }
{
    known(versions) <= 1 << 29
}

/// Whether no version is above twice the serial number and 1. Takes no memory.
pub fn are_versions_bounded(versions: &[(RelPath, u32)], serial: u64) -> bool
    requires { serial < 2 ^ 31 }
    ensures { result ≡ are_versions_bounded serial versions.now }
{
    versions
        .iter()
        .all(|entry| entry.1 as u64 <= 2 * serial + 1)
}

/// Whether the effect keeps the version within LSP 3.17's "integer", which ends at 2^31-1. Takes no memory.
pub fn may_bump(versions: &[(RelPath, u32)], effect: &Effect) -> bool
    ensures { result ≡ may_bump versions.now effect.now }
{
    match effect {
        Effect::Bump { path, by } => {
            let raised = version_of(versions, path) as u64 + *by as u64;
            raised <= (1 << 31) - 1
        }
        _ => true,
    }
}

/// The versions after the effect. This project's own rule.
pub fn versions_after(alloc: Global, versions: Numbers, effect: &Effect) -> Result<Numbers, Memory>
    requires { may_bump versions.items effect.now ≡ true }
    ensures { IfOk result (λ all. all.items ≡ versions_after versions.items effect.now) }
{
    match effect {
        Effect::Bump { path, by } => bumped(versions, path.duplicate(alloc)?, *by),
        _ => Ok(versions),
    }
}
