// The changes that contents make.
ghost use Rattle.std.specs.Prelude.{◌≡◌, [], true, flat_map, IfOk, OnOk};
ghost use Rattle.std.specs.FinMap.{is_sorted, put};
ghost use Rattle.wse_path.specs.Order.{path_cmp};
ghost use Rattle.wse_path.specs.Changes.{change_to};
ghost use Rattle.wse_path.specs.PathMap.{put_each};
ghost use Rattle.wse_overlay.specs.Overlay.{without_content, with_content};

use crate::contents::Contents;
use crate::lookups::{Gone, Put};
use std::alloc::Global;
use std::collections::BTreeMap;
use wse_path::{
    Bytes, Change, Changes, Items, Memory, RelPath, content_slice, copy_content, is_same_content,
};

/// The new content of paths. Content that isn't there is None.
type NewContents = BTreeMap<RelPath, Option<Bytes>>;

/// The new content of each path at which something is gone or was put.
pub fn new_contents(alloc: Global, gone: Gone, put: Put) -> Result<NewContents, Memory>
    ensures contents { IfOk result (λ all. all.entries
        ≡ put_each (with_content put.entries) (put_each (without_content gone.keys) [])) }
    ensures rises { OnOk result (is_sorted path_cmp put.entries ≡ true) }
{
    let mut all = BTreeMap::new(alloc);
    take_away(&mut all, gone)?;
    put_all(&mut all, put)?;
    Ok(all)
}

/// Sets the content of one path.
fn set(all: &mut NewContents, path: RelPath, content: Option<Bytes>) -> Result<(), Memory>
    ensures { OnOk result (all.new.entries ≡ put path_cmp path content all.old.entries) }
{
    all.insert(path, content)?;
    Ok(())
}

/// Sets that nothing is at the paths.
fn take_away(all: &mut NewContents, paths: Gone) -> Result<(), Memory>
    ensures { OnOk result (all.new.entries ≡ put_each (without_content paths.keys) all.old.entries) }
{
    for path in paths {
        set(all, path, None)?;
    }
    Ok(())
}

/// Sets the content of each file.
fn put_all(all: &mut NewContents, files: Put) -> Result<(), Memory>
    ensures contents { OnOk result (all.new.entries ≡ put_each (with_content files.entries) all.old.entries) }
    ensures rises { is_sorted path_cmp files.entries ≡ true }
{
    for (path, bytes) in files {
        set(all, path, Some(bytes))?;
    }
    Ok(())
}

/// The changes that the new contents make in the files below, in path order: each path whose content isn't theirs.
pub fn changes_to<C: Contents>(
    alloc: Global,
    below: &C,
    contents: NewContents,
) -> Result<Changes, Memory>
    ensures { IfOk result (λ changes. changes ≡ flat_map (change_to (C.files below.now)) contents.entries) }
{
    let mut changes = Vec::new(alloc);
    for (path, after) in contents {
        let before = below.get(&path);
        if !is_same_content(before, content_slice(&after)) {
            let before = copy_content(alloc, before)?;
            changes.push(Change {
                path,
                before,
                after,
            })?;
        }
    }
    Ok(Items::new(changes))
}
