// Files that are looked up.
ghost use Rattle.std.specs.Prelude.{◌≡◌, IfOk};
ghost use Rattle.std.specs.Option.{option_copied};
ghost use Rattle.wse_path.specs.Tree.{Entries, content, file_above, fits, is_folder, paths_under, IsTree};

use std::alloc::Global;
use wse_path::{Files, Memory, RelPath, Tree};

/// Files that are looked up: a tree, or other files with changes over them. Contracts see the files in path order.
pub trait Contents {
    ghost files: { Self → Entries };

    /// The bytes at the path. Takes no memory.
    fn get(&self, path: &RelPath) -> Option<&[u8]>
        ensures { option_copied result ≡ content (files self.now) path.now };

    /// The file that stands above the path, if there is one. Takes no memory.
    fn file_above(&self, path: &RelPath) -> Option<&RelPath>
        ensures { option_copied result ≡ file_above (files self.now) path.now };

    /// Whether some file is under the path.
    fn is_folder(&self, alloc: Global, path: &RelPath) -> Result<bool, Memory>
        ensures { IfOk result (λ holds. holds ≡ is_folder (files self.now) path.now) };

    /// The files under the path, in path order.
    fn under(&self, alloc: Global, path: &RelPath) -> Result<Files, Memory>
        ensures { IfOk result (λ paths. paths ≡ paths_under (files self.now) path.now) };

    /// Whether nothing is at, above or under the path.
    #[tactic(auto, using(wse_path::proofs::TreeLemmas::fits_is))]
    fn fits(&self, alloc: Global, path: &RelPath) -> Result<bool, Memory>
        ensures { IfOk result (λ free. free ≡ fits (files self.now) path.now) }
    {
        let folder = self.is_folder(alloc, path)?;
        Ok(self.get(path).is_none() && self.file_above(path).is_none() && !folder)
    }

    // What is shown is a tree.
    ghost is_tree: { (contents : Self) → IsTree (files contents) };
}

impl Contents for Tree {
    ghost files = { λ t. t.files };

    ghost is_tree = { λ t. t.is_tree };

    fn get(&self, path: &RelPath) -> Option<&[u8]> {
        Tree::get(self, path)
    }

    fn file_above(&self, path: &RelPath) -> Option<&RelPath> {
        Tree::file_above(self, path)
    }

    fn is_folder(&self, _alloc: Global, path: &RelPath) -> Result<bool, Memory> {
        Ok(Tree::is_folder(self, path))
    }

    fn under(&self, alloc: Global, path: &RelPath) -> Result<Files, Memory> {
        Tree::under(self, alloc, path)
    }
}
