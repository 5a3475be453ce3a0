// Reading versions.
ghost use Rattle.std.specs.Prelude.{◌≡◌, None, option_map};
ghost use Rattle.std.specs.Option.{option_copied};
ghost use Rattle.wse_codec.specs.Pieces.{row_at};
ghost use Rattle.wse_codec.specs.Reading.{version_behind, versions_at};
ghost use Rattle.wse_codec.specs.Gives.{Gives};

use crate::fields::{take_count, take_u32};
use crate::paths::take_path;
use crate::unread::Unread;
use std::alloc::Global;
use wse_path::{Bumps, Numbered, RelPath};

fn path_of(version: Option<&Numbered>) -> Option<&RelPath>
    ensures { option_copied result ≡ option_map (λ v. v.path) (option_copied version.entry) }
{
    match version {
        Some(version) => Some(&version.path),
        None => None,
    }
}

/// A path with its version, which isn't 0. It comes behind the other one, where there is one.
#[tactic(auto, unfolding(crate::specs::Reading::version_behind))]
fn take_version<'a>(
    alloc: Global,
    before: Option<&Numbered>,
    bytes: &'a [u8],
) -> Result<(Numbered, &'a [u8]), Unread>
    ensures { Gives (λ x. (x.0, x.1.now)) result (version_behind (option_copied before.entry) bytes.now) }
{
    let (path, rest) = take_path(alloc, path_of(before), bytes)?;
    let (number, rest) = take_count(rest)?;
    Ok((Numbered { path, number }, rest))
}

fn take_version_row(
    alloc: Global,
    count: u32,
    bytes: &[u8],
) -> Result<(Vec<Numbered>, &[u8]), Unread>
    ensures { Gives (λ x. (x.0.items, x.1.now)) result (row_at version_behind None count bytes.now) }
{
    let mut versions = Vec::new(alloc);
    let mut rest = bytes;
    for _ in 0..count {
        let (version, after) = take_version(alloc, versions.last(), rest)?;
        versions.push(version)?;
        rest = after;
    }
    Ok((versions, rest))
}

/// The versions of a state, in path order.
#[tactic(auto, unfolding(crate::specs::Reading::versions_at))]
pub(crate) fn take_versions(alloc: Global, bytes: &[u8]) -> Result<(Bumps, &[u8]), Unread>
    ensures { Gives (λ x. (x.0, x.1.now)) result (versions_at bytes.now) }
{
    let (count, rest) = take_u32(bytes)?;
    let (versions, rest) = take_version_row(alloc, count, rest)?;
    Ok((Bumps::new(versions), rest))
}
