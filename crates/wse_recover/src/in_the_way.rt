// The first file in the way of a record that is to be finished.
ghost use Rattle.std.specs.Prelude.{◌≡◌, ◌&&◌, not, find, slice_get, IfOk};
ghost use Rattle.std.specs.Option.{option_copied};
ghost use Rattle.wse_element.specs.Way.{is_set, is_between, in_the_way};

use std::alloc::Global;
use wse_path::{Bytes, Duplicate, Memory, RelPath, Tree};

fn is_set(sets: &[(RelPath, Option<Bytes>)], path: &RelPath) -> bool
    ensures { result ≡ is_set sets.now path.now }
{
    sets.iter().any(|set| path.cmp(&set.0).is_eq())
}

// Whether the path is above or under one that is made present.
fn is_between(sets: &[(RelPath, Option<Bytes>)], path: &RelPath) -> bool
    ensures { result ≡ is_between sets.now path.now }
{
    sets.iter().any(|set| set.1.is_some() && (path.is_under(&set.0) || set.0.is_under(path)))
}

fn first_of<'a>(paths: &'a [RelPath], sets: &[(RelPath, Option<Bytes>)]) -> Option<&'a RelPath>
    ensures { option_copied result ≡ find (λ p. not (is_set sets.now p) && is_between sets.now p) paths.now }
{
    paths
        .iter()
        .find(|path| !is_set(sets, path) && is_between(sets, path))
}

/// The first of the tree's files that is in the way of what is to be set: it isn't set itself, and is above or under a path
/// that is made present.
#[tactic(auto, using(crate::proofs::SettingLemmas::first_of))]
pub(crate) fn first_in_the_way(
    alloc: Global,
    tree: &Tree,
    sets: &[(RelPath, Option<Bytes>)],
) -> Result<Option<RelPath>, Memory>
    ensures { IfOk result (λ first. first ≡ slice_get (in_the_way tree.now.files sets.now) 0) }
{
    let paths = tree.paths(alloc)?;
    match first_of(paths.as_slice(), sets) {
        Some(path) => Ok(Some(path.duplicate(alloc)?)),
        None => Ok(None),
    }
}
