// A tree that makes its changes many at once.
ghost use Rattle.std.specs.Prelude.{◌≡◌, ◌++◌, [], ◌∷◌, None, Some, IfOk, OnOk, OnErr, true, length, map, option_map};
ghost use Rattle.std.specs.FinMap.{is_sorted};
ghost use Rattle.wse_path.specs.Order.{path_cmp};
ghost use Rattle.wse_path.specs.Place.{all_before};
ghost use Rattle.wse_path.specs.Tree.{content, fits, put_file, remove_file, set_file, set_files, HasRoom, IsTree};

use std::alloc::Global;
use std::marker::Model;
use std::mem;
use wse_path::{Bytes, Duplicate, Memory, RelPath, Tree, copy_bytes, copy_content};

/// A tree that keeps changes which come in path order apart, to make them all in one pass. Contracts see the files with all
/// changes made, and the changes that are still to be made.
#[derive(Drop)]
pub struct LazyTree {
    alloc: Global,
    tree: Tree,
    changes: Vec<(RelPath, Option<Bytes>)>,
    ghost is_tree: { IsTree (set_files changes.items tree.files) },
}

impl Model for LazyTree {
    ghost use Rattle.std.specs.Prelude.{◌≡◌, ◌≤◌, true, length};
    ghost use Rattle.std.specs.FinMap.{is_sorted};
    ghost use Rattle.wse_path.specs.Order.{path_cmp};
    ghost use Rattle.wse_path.specs.Tree.{set_files};
    ghost use Rattle.wse_disk.specs.Lazy.{LazyState};

    ghost Value = { LazyState };

    ghost view = { λ a. record { files = set_files a.changes.items a.tree.files; is_tree = a.is_tree; changes = a.changes.items } };

    ghost invariant = { λ a. (is_sorted path_cmp a.changes.items ≡ true) × (length a.changes.items ≤ a.tree.spare) };
}

impl LazyTree {
    /// The tree, with no change to be made. Takes no memory.
    pub fn new(alloc: Global, tree: Tree) -> LazyTree
        ensures files { result.files ≡ tree.files }
        ensures made { result.changes ≡ [] }
    {
        LazyTree {
            alloc,
            tree,
            changes: Vec::new(alloc),
        }
    }

    /// Makes all changes. Takes no memory.
    pub fn settle(&mut self)
        ensures files { self.new.files ≡ self.old.files }
        ensures made { self.new.changes ≡ [] }
    {
        let changes = mem::replace(&mut self.changes, Vec::new(self.alloc));
        self.tree.set_all(changes);
    }

    /// The tree, once all changes are made.
    pub fn tree(&self) -> &Tree
        requires { self.now.changes ≡ [] }
        ensures { result.now.files ≡ self.now.files }
    {
        &self.tree
    }

    /// The tree with all changes made. Takes no memory.
    pub fn into_tree(self) -> Tree
        ensures { result.files ≡ self.files }
    {
        let mut lazy = self;
        lazy.settle();
        lazy.tree
    }

    /// The paths of all files, in path order. Makes all changes.
    pub fn names(&mut self, alloc: Global) -> Result<Vec<RelPath>, Memory>
        ensures names { IfOk result (λ paths. paths.items ≡ map (λ e. e.0) self.old.files) }
        ensures files { self.new.files ≡ self.old.files }
        ensures made { self.new.changes ≡ [] }
    {
        self.settle();
        Ok(self.tree().paths(alloc)?.into_vec())
    }

    /// How many bytes the file has. Makes all changes.
    pub fn size(&mut self, path: &RelPath) -> Option<u64>
        ensures size { result ≡ option_map length (content self.old.files path.now) }
        ensures files { self.new.files ≡ self.old.files }
        ensures made { self.new.changes ≡ [] }
    {
        self.settle();
        self.tree().get(path).map(|bytes| bytes.len() as u64)
    }

    /// A copy of the file's bytes. Makes all changes.
    pub fn read(&mut self, alloc: Global, path: &RelPath) -> Result<Option<Bytes>, Memory>
        ensures bytes { IfOk result (λ bytes. bytes ≡ content self.old.files path.now) }
        ensures files { self.new.files ≡ self.old.files }
        ensures made { self.new.changes ≡ [] }
    {
        self.settle();
        copy_content(alloc, self.tree().get(path))
    }

    /// Whether nothing is at, above or under the path. Makes all changes.
    pub fn fits(&mut self, path: &RelPath) -> bool
        ensures fits { result ≡ fits self.old.files path.now }
        ensures files { self.new.files ≡ self.old.files }
        ensures made { self.new.changes ≡ [] }
    {
        self.settle();
        self.tree().fits(path)
    }

    /// Puts a copy of the bytes at the path. After Memory the files are as they were.
    pub fn put(&mut self, path: &RelPath, bytes: &[u8]) -> Result<(), Memory>
        requires { HasRoom self.old.files path.now }
        ensures ok { OnOk result (self.new.files ≡ put_file self.old.files path.now bytes.now) }
        ensures err { OnErr result (self.new.files ≡ self.old.files) }
    {
        let copy = copy_bytes(self.alloc, bytes)?;
        self.change(path.duplicate(self.alloc)?, Some(copy))
    }

    /// Takes the path away. It needs no memory.
    pub fn remove(&mut self, path: &RelPath)
        ensures { self.new.files ≡ remove_file self.old.files path.now }
    {
        if self.put_removal(path).is_err() {
            self.settle();
            let _ = self.tree.remove(path);
        }
    }

    // Keeps it apart that the path is to be taken away. After Memory the files are as they were.
    fn put_removal(&mut self, path: &RelPath) -> Result<(), Memory>
        ensures ok { OnOk result (self.new.files ≡ remove_file self.old.files path.now) }
        ensures err { OnErr result (self.new.files ≡ self.old.files) }
    {
        self.change(path.duplicate(self.alloc)?, None)
    }

    // Keeps a change apart, behind those before it in path order. After Memory the files are as they were.
    fn change(&mut self, path: RelPath, content: Option<Bytes>) -> Result<(), Memory>
        requires { IsTree (set_file self.old.files path content) }
        ensures ok { OnOk result (self.new.files ≡ set_file self.old.files path content) }
        ensures err { OnErr result (self.new.files ≡ self.old.files) }
    {
        self.make_way(&path);
        self.push(path, content)
    }

    // Makes the changes before the path's, where it doesn't come behind them all.
    fn make_way(&mut self, path: &RelPath)
        ensures files { self.new.files ≡ self.old.files }
        ensures before { all_before path_cmp self.new.changes path.now ≡ true }
    {
        if !comes_behind(&self.changes, path) {
            self.settle();
        }
    }

    fn push(&mut self, path: RelPath, content: Option<Bytes>) -> Result<(), Memory>
        requires before { all_before path_cmp self.old.changes path ≡ true }
        requires tree { IsTree (set_file self.old.files path content) }
        ensures ok { OnOk result (self.new.files ≡ set_file self.old.files path content) }
        ensures err { OnErr result (self.new.files ≡ self.old.files) }
    {
        let Some(room) = self.changes.len().checked_add(1) else {
            return Err(Memory);
        };
        self.tree.reserve(room)?;
        self.changes.push((path, content))?;
        Ok(())
    }
}

// Whether the path comes behind those of all changes.
fn comes_behind(changes: &[(RelPath, Option<Bytes>)], path: &RelPath) -> bool
    requires { is_sorted path_cmp changes.now ≡ true }
    ensures { result ≡ true → all_before path_cmp changes.now path.now ≡ true }
{
    match changes.last() {
        Some(last) => last.0.cmp(path).is_lt(),
        None => true,
    }
}
