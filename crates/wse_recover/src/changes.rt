// What the setting of paths changes in a tree.
ghost use Rattle.std.specs.Prelude.{◌≡◌, ◌++◌, true, flat_map, IfOk, OnOk};
ghost use Rattle.std.specs.FinMap.{is_sorted};
ghost use Rattle.wse_path.specs.Order.{path_cmp};
ghost use Rattle.wse_path.specs.Tree.{set_files};
ghost use Rattle.wse_path.specs.Changes.{change_to, changes_between};

use std::alloc::Global;
use wse_path::{
    Bytes, Change, Changes, Items, Memory, RelPath, Tree, content_slice, copy_content,
    is_same_content,
};

// Adds the change at the path, if its content doesn't stay.
fn push_change(
    changes: &mut Vec<Change>,
    alloc: Global,
    tree: &Tree,
    path: RelPath,
    content: Option<Bytes>,
) -> Result<(), Memory>
    ensures { OnOk result (changes.new.items ≡ changes.old.items ++ change_to tree.now.files (path, content)) }
{
    let was = tree.get(&path);
    if is_same_content(was, content_slice(&content)) {
        return Ok(());
    }
    let before = copy_content(alloc, was)?;
    changes.push(Change {
        path,
        before,
        after: content,
    })?;
    Ok(())
}

fn each_change(
    alloc: Global,
    tree: &Tree,
    sets: Vec<(RelPath, Option<Bytes>)>,
) -> Result<Vec<Change>, Memory>
    ensures { IfOk result (λ changes. changes.items ≡ flat_map (change_to tree.now.files) sets.items) }
{
    let mut changes = Vec::new(alloc);
    for (path, content) in sets {
        push_change(&mut changes, alloc, tree, path, content)?;
    }
    Ok(changes)
}

/// The changes from the tree to what it is when these paths are set, which rise. A path whose content stays has none.
#[tactic(auto, using(crate::proofs::SettingLemmas::changes_set))]
pub(crate) fn plan_to_finish(
    alloc: Global,
    tree: &Tree,
    sets: Items<(RelPath, Option<Bytes>)>,
) -> Result<Changes, Memory>
    requires rise { is_sorted path_cmp sets ≡ true }
    ensures { IfOk result (λ changes. changes ≡ changes_between tree.now.files (set_files sets tree.now.files)) }
{
    let changes = each_change(alloc, tree, sets.into_vec())?;
    Ok(Changes::new(changes))
}
