// The quick way and the slow way, over many small trees.
use crate::given::{listed, name_of, op_of, put, tree_of};
use std::alloc::Global;
use std::test::Fail;
use wse_path::{Changes, Duplicate, Memory, ResourceOp, Tree};
use wse_resource::{operate, operated_slowly};

/// Trees, one a line.
const TREES: &str = "
a
a/b
a.b a/b
a/b a/c b
a/b/c a/c b/c
a a.b b/a b/c";

const PATHS: &str = "a
a/b
a/c
a.b
b
b/c";

/// Whether an operation puts its file in place of another, or deletes a folder; and whether it may come to nothing.
const OPTIONS: &str = "
ignore
overwrite recursive
overwrite recursive ignore";

fn take_away(tree: &mut Tree, changes: &Changes) {
    for change in changes.as_slice() {
        if change.after.is_none() {
            tree.remove(&change.path);
        }
    }
}

fn put_new(alloc: Global, tree: &mut Tree, changes: &Changes) -> Result<(), Memory> {
    for change in changes.as_slice() {
        if let Some(after) = &change.after {
            put(tree, change.path.duplicate(alloc)?, after.duplicate(alloc)?)?;
        }
    }
    Ok(())
}

/// The tree after the changes, or the refusal.
fn quickly(alloc: Global, files: &str, op: &ResourceOp) -> Result<String, Fail> {
    let mut tree = tree_of(alloc, files)?;
    match operate(alloc, &tree, op) {
        Ok(changes) => {
            take_away(&mut tree, &changes);
            put_new(alloc, &mut tree, &changes)?;
            Ok(listed(alloc, &tree)?)
        }
        Err(why) => Ok(name_of(alloc, &why)?),
    }
}

fn slowly(alloc: Global, files: &str, op: &ResourceOp) -> Result<String, Fail> {
    let tree = tree_of(alloc, files)?;
    match operated_slowly(alloc, &tree, op) {
        Ok(new) => Ok(listed(alloc, &new)?),
        Err(why) => Ok(name_of(alloc, &why)?),
    }
}

/// Over each tree.
fn agree(alloc: Global, op: &ResourceOp) -> Result<bool, Fail> {
    for files in TREES.lines() {
        if quickly(alloc, files, op)?.as_str() != slowly(alloc, files, op)?.as_str() {
            return Ok(false);
        }
    }
    Ok(true)
}

/// With all options.
fn all_agree(alloc: Global, asked: &str) -> Result<bool, Fail> {
    for options in OPTIONS.lines() {
        let asked = format!(in alloc; "{asked} {options}")?;
        if !agree(alloc, &op_of(alloc, asked.as_str())?)? {
            return Ok(false);
        }
    }
    Ok(true)
}

fn renames_agree(alloc: Global, from: &str) -> Result<bool, Fail> {
    for to in PATHS.lines() {
        let asked = format!(in alloc; "rename {from} {to}")?;
        if !all_agree(alloc, asked.as_str())? {
            return Ok(false);
        }
    }
    Ok(true)
}

fn agree_at_each(alloc: Global, word: &str) -> Result<bool, Fail> {
    for path in PATHS.lines() {
        let asked = format!(in alloc; "{word} {path}")?;
        if !all_agree(alloc, asked.as_str())? {
            return Ok(false);
        }
    }
    Ok(true)
}

fn renames_agree_from_each(alloc: Global) -> Result<bool, Fail> {
    for from in PATHS.lines() {
        if !renames_agree(alloc, from)? {
            return Ok(false);
        }
    }
    Ok(true)
}

#[test]
fn both_ways_agree(rt: HostRuntime) -> Result<(), Fail> {
    assert!(rt; agree_at_each(rt.alloc(), "create")?);
    assert!(rt; agree_at_each(rt.alloc(), "delete")?);
    assert!(rt; renames_agree_from_each(rt.alloc())?);
    Ok(())
}
