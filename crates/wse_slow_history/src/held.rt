// Plain lists as the types that performing an edit takes.
ghost use Rattle.std.specs.Prelude.{◌≡◌, true, ◌<◌, ◌^◌, IfOk};
ghost use Rattle.std.specs.FinMap.{is_sorted};
ghost use Rattle.wse_path.specs.Order.{path_cmp};
ghost use Rattle.wse_path.specs.Tree.{IsTree};
ghost use Rattle.wse_element.specs.Numbers.{are_some, are_versions_bounded};

use crate::state::copied_versions;
use std::alloc::Global;
use wse_path::{Bytes, Duplicate, Memory, RelPath, Tree, Versions};

/// The tree of these files.
pub(crate) fn tree_of(alloc: Global, files: &[(RelPath, Bytes)]) -> Result<Tree, Memory>
    requires { IsTree files.now }
    ensures { IfOk result (λ tree. tree.files ≡ files.now) }
{
    let mut tree = Tree::new(alloc);
    for file in files {
        tree.put(file.0.duplicate(alloc)?, file.1.duplicate(alloc)?)?;
    }
    Ok(tree)
}

/// These versions, of which so many commands have raised each.
pub(crate) fn versions_of(
    alloc: Global,
    numbers: &[(RelPath, u32)],
    serial: u64,
) -> Result<Versions, Memory>
    requires rise { is_sorted path_cmp numbers.now ≡ true }
    requires some { are_some numbers.now ≡ true }
    requires bounded { are_versions_bounded serial numbers.now ≡ true }
    requires small { serial < 2 ^ 30 }
    ensures { IfOk result (λ versions. versions.entries ≡ numbers.now) }
{
    let all = copied_versions(alloc, numbers)?;
    let mut versions = Versions::new(alloc);
    versions.reserve(all.len())?;
    versions.bump_all(all);
    Ok(versions)
}
