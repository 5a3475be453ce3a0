// What contents that are to come change in the tree.
ghost use Rattle.std.specs.Prelude.{◌≡◌, ◌++◌, OnOk};
ghost use Rattle.std.specs.Option.{option_copied};
ghost use Rattle.wse_path.specs.Changes.{is_same, change_to};

use std::alloc::Global;
use wse_path::{Bytes, Change, Duplicate, Memory, RelPath, Tree, copy_content};

/// Whether both are the same content, absence included.
pub(crate) fn is_same(now: Option<&[u8]>, content: &Option<Bytes>) -> bool
    ensures { result ≡ is_same (option_copied now.entry) content.now }
{
    match (now, content) {
        (None, None) => true,
        (Some(now), Some(content)) => now == content.as_slice(),
        _ => false,
    }
}

/// The change that the path's new content makes, if it isn't the tree's.
pub(crate) fn push_change(
    changes: &mut Vec<Change>,
    alloc: Global,
    tree: &Tree,
    path: &RelPath,
    content: Option<Bytes>,
) -> Result<(), Memory>
    ensures { OnOk result (changes.new.items ≡ changes.old.items ++ change_to tree.now.files (path.now, content)) }
{
    let before = tree.get(path);
    if !is_same(before, &content) {
        changes.push(Change {
            path: path.duplicate(alloc)?,
            before: copy_content(alloc, before)?,
            after: content,
        })?;
    }
    Ok(())
}
