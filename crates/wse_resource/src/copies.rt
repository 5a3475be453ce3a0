// Files that stay.
ghost use Rattle.std.specs.Prelude.{◌≡◌, false, if◌then◌else◌, IfOk, OnOk};
ghost use Rattle.wse_path.specs.Tree.{put_file, HasRoom};
ghost use Rattle.wse_resource.specs.Table.{is_within};
ghost use Rattle.wse_resource.specs.After.{without};

use crate::moves::is_within;
use std::alloc::Global;
use wse_path::{Duplicate, Memory, RelPath, Tree, copy_bytes};

/// The files but those at or under the path.
pub fn without(alloc: Global, tree: &Tree, path: &RelPath) -> Result<Tree, Memory>
    ensures { IfOk result (λ left. left.files ≡ without tree.now.files path.now) }
{
    let mut left = Tree::new(alloc);
    for index in 0..tree.count() {
        let (file, bytes) = tree.file_at(index);
        put_unless_within(alloc, &mut left, file, bytes, path)?;
    }
    Ok(left)
}

fn put_unless_within(
    alloc: Global,
    tree: &mut Tree,
    file: &RelPath,
    bytes: &[u8],
    path: &RelPath,
) -> Result<(), Memory>
    requires { is_within file.now path.now ≡ false → HasRoom tree.old.files file.now }
    ensures { OnOk result (tree.new.files
        ≡ (if is_within file.now path.now then tree.old.files
        else put_file tree.old.files file.now bytes.now)) }
{
    if is_within(file, path) {
        return Ok(());
    }
    tree.put(file.duplicate(alloc)?, copy_bytes(alloc, bytes)?)
}
