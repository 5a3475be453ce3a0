// What differs between two whole trees, as it is defined: path by path.
ghost use Rattle.std.specs.Prelude.{◌≡◌, ◌++◌, IfOk, OnOk};
ghost use Rattle.wse_path.specs.Tree.{content, put_all};
ghost use Rattle.wse_path.specs.Changes.{change_at, changes_between};

use std::alloc::Global;
use wse_path::{
    Bytes, Change, Changes, Duplicate, Items, Memory, PathMap, RelPath, Tree, copy_bytes,
    copy_content, is_same_content,
};

/// Puts copies of all files of the tree.
fn put_files(alloc: Global, files: &mut PathMap<Bytes>, tree: &Tree) -> Result<(), Memory>
    ensures { OnOk result (files.new.entries ≡ put_all tree.now.files files.old.entries) }
{
    for index in 0..tree.count() {
        let (path, bytes) = tree.file_at(index);
        files.put(path.duplicate(alloc)?, copy_bytes(alloc, bytes)?)?;
    }
    Ok(())
}

/// The files of the old tree with those of the new one put.
fn files_of_both(alloc: Global, old: &Tree, new: &Tree) -> Result<PathMap<Bytes>, Memory>
    ensures { IfOk result (λ both. both.entries ≡ put_all new.now.files old.now.files) }
{
    let mut both = PathMap::new(alloc);
    put_files(alloc, &mut both, old)?;
    put_files(alloc, &mut both, new)?;
    Ok(both)
}

/// A copy of the content at the path.
fn content_of(alloc: Global, tree: &Tree, path: &RelPath) -> Result<Option<Bytes>, Memory>
    ensures { IfOk result (λ copy. copy ≡ content tree.now.files path.now) }
{
    copy_content(alloc, tree.get(path))
}

/// Appends the change at the path, if its content differs.
fn push_change(
    alloc: Global,
    old: &Tree,
    new: &Tree,
    path: &RelPath,
    changes: &mut Vec<Change>,
) -> Result<(), Memory>
    ensures { OnOk result (changes.new.items
        ≡ changes.old.items ++ change_at old.now.files new.now.files path.now) }
{
    if is_same_content(old.get(path), new.get(path)) {
        return Ok(());
    }
    changes.push(Change {
        path: path.duplicate(alloc)?,
        before: content_of(alloc, old, path)?,
        after: content_of(alloc, new, path)?,
    })?;
    Ok(())
}

/// The paths at which the trees differ, with their old and new contents. Looks at each path of both.
pub fn difference(alloc: Global, old: &Tree, new: &Tree) -> Result<Changes, Memory>
    ensures { IfOk result (λ changes. changes ≡ changes_between old.now.files new.now.files) }
{
    let both = files_of_both(alloc, old, new)?;
    let mut changes = Vec::new(alloc);
    for entry in both.as_slice() {
        push_change(alloc, old, new, &entry.0, &mut changes)?;
    }
    Ok(Items::new(changes))
}
