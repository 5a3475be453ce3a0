// Look-ups in files that were put over others, and in files of which some are gone.
ghost use Rattle.std.specs.Prelude.{◌≡◌, not, IfOk, OnOk};
ghost use Rattle.std.specs.List.{filter};
ghost use Rattle.std.specs.Option.{option_copied};
ghost use Rattle.wse_path.specs.Tree.{content, file_above, is_folder, paths_under};
ghost use Rattle.wse_path.specs.PathMap.{put_each};
ghost use Rattle.wse_overlay.specs.Overlay.{kept, shown, marked, AreApart};
ghost use Rattle.wse_path.specs.Order.{is_named};

use crate::contents::Contents;
use std::alloc::Global;
use std::collections::{BTreeMap, BTreeSet};
use std::ops::Bound;
use wse_path::{Bytes, Duplicate, Files, Memory, RelPath};

/// Files that were put.
pub type Put = BTreeMap<RelPath, Bytes>;

/// Paths at which a file is gone.
pub type Gone = BTreeSet<RelPath>;

/// The bytes at the path, if they aren't gone.
pub fn kept_bytes<'a, C: Contents>(below: &'a C, gone: &Gone, path: &RelPath) -> Option<&'a [u8]>
    ensures { option_copied result ≡ content (kept gone.now.keys (C.files below.now)) path.now }
{
    if gone.contains(path) {
        return None;
    }
    below.get(path)
}

/// The file that was put and stands above the path.
pub fn put_above<'a>(put: &'a Put, path: &RelPath) -> Option<&'a RelPath>
    requires { AreApart put.now.entries }
    ensures { option_copied result ≡ file_above put.now.entries path.now }
{
    // Only the last file before the path can be above it: one between the two would be under the other.
    match put.range(..path).next_back() {
        Some((last, _)) => {
            if path.is_under(last) {
                Some(last)
            } else {
                None
            }
        }
        None => None,
    }
}

/// The file that isn't gone and stands above the path.
pub fn kept_above<'a, C: Contents>(below: &'a C, gone: &Gone, path: &RelPath) -> Option<&'a RelPath>
    ensures { option_copied result ≡ file_above (kept gone.now.keys (C.files below.now)) path.now }
{
    match below.file_above(path) {
        Some(file) => {
            if gone.contains(file) {
                None
            } else {
                Some(file)
            }
        }
        None => None,
    }
}

/// Whether some file that was put is under the path.
pub fn put_under(put: &Put, path: &RelPath) -> bool
    ensures { result ≡ is_folder put.now.entries path.now }
{
    match put.range((Bound::Excluded(path), Bound::Unbounded)).next() {
        Some((first, _)) => first.is_under(path),
        None => false,
    }
}

/// The files under the path that were put, in path order.
fn put_paths(alloc: Global, put: &Put, path: &RelPath) -> Result<Vec<RelPath>, Memory>
    ensures { IfOk result (λ paths. paths.items ≡ paths_under put.now.entries path.now) }
{
    let mut paths = Vec::new(alloc);
    for (file, _) in put.range((Bound::Excluded(path), Bound::Unbounded)) {
        if !file.is_under(path) {
            break;
        }
        paths.push(file.duplicate(alloc)?)?;
    }
    Ok(paths)
}

/// Those of the files that aren't gone, in the order in which they come.
fn not_gone(alloc: Global, gone: &Gone, files: Vec<RelPath>) -> Result<Vec<RelPath>, Memory>
    ensures { IfOk result (λ paths. paths.items ≡ filter (λ q. not (is_named gone.now.keys q)) files.items) }
{
    let mut paths = Vec::with_capacity(alloc, files.len())?;
    for file in files {
        if !gone.contains(&file) {
            paths.push(file)?;
        }
    }
    Ok(paths)
}

/// The files under the path that aren't gone, in path order.
fn kept_paths<C: Contents>(
    alloc: Global,
    below: &C,
    gone: &Gone,
    path: &RelPath,
) -> Result<Vec<RelPath>, Memory>
    ensures { IfOk result (λ paths. paths.items ≡ paths_under (kept gone.now.keys (C.files below.now)) path.now) }
{
    let files = below.under(alloc, path)?;
    Ok(not_gone(alloc, gone, files.into_vec())?)
}

/// Whether some file that isn't gone is under the path.
pub fn kept_under<C: Contents>(
    alloc: Global,
    below: &C,
    gone: &Gone,
    path: &RelPath,
) -> Result<bool, Memory>
    ensures { IfOk result (λ holds. holds ≡ is_folder (kept gone.now.keys (C.files below.now)) path.now) }
{
    let left = kept_paths(alloc, below, gone, path)?;
    Ok(!left.is_empty())
}

/// Adds the paths.
fn add_all(all: &mut BTreeSet<RelPath>, paths: Vec<RelPath>) -> Result<(), Memory>
    ensures { OnOk result (marked all.new.keys ≡ put_each (marked paths.items) (marked all.old.keys)) }
{
    for path in paths {
        all.insert(path)?;
    }
    Ok(())
}

/// The files under the path, those that were put and those below that aren't gone, in path order.
pub fn paths_shown<C: Contents>(
    alloc: Global,
    below: &C,
    gone: &Gone,
    put: &Put,
    path: &RelPath,
) -> Result<Files, Memory>
    ensures { IfOk result
        (λ files. files ≡ paths_under (shown gone.now.keys put.now.entries (C.files below.now)) path.now) }
{
    let kept = kept_paths(alloc, below, gone, path)?;
    let added = put_paths(alloc, put, path)?;
    if added.is_empty() {
        return Ok(Files::new(kept));
    }
    let mut all = BTreeSet::new(alloc);
    add_all(&mut all, kept)?;
    add_all(&mut all, added)?;
    Ok(Files::new(listed(alloc, all)?))
}

/// The paths in path order.
fn listed(alloc: Global, all: BTreeSet<RelPath>) -> Result<Vec<RelPath>, Memory>
    ensures { IfOk result (λ paths. paths.items ≡ all.keys) }
{
    Ok(all.into_iter().collect(alloc)?)
}
