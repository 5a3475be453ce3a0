// Trees: paths with their bytes, no path under another.
ghost use Rattle.std.specs.Prelude.{◌≡◌, ◌+◌, ◌<◌, ◌≤◌, [], true, Some, length, map, IfOk, OnOk, OnErr, slice_get};
ghost use Rattle.std.specs.FinMap.{is_sorted};
ghost use Rattle.std.specs.Option.{option_copied};
ghost use Rattle.wse_path.specs.Order.{path_cmp};
ghost use Rattle.wse_path.specs.Tree.{content, is_present, put_file, remove_file, set_file, set_files, fits, is_folder, entries_behind, paths_under, file_above, total_bytes, HasRoom, IsTree};

use crate::items::{Bytes, Duplicate, Files};
use crate::memory::Memory;
use crate::path::RelPath;
use crate::path_map::PathMap;
use std::alloc::Global;
use std::marker::Model;

/// A finite map from paths to bytes in which no path is under another. Contracts see its files in path order, that they
/// are a tree, and how many more find room without taking memory.
pub struct Tree {
    map: PathMap<Bytes>,
    ghost is_tree: { IsTree map.entries },
}

// Written out, so that who drops one takes a single step.
impl Drop for Tree {
    fn drop(self) {
        let Tree { map } = self;
        drop(map);
    }
}

impl Model for Tree {
    ghost use Rattle.wse_path.specs.Tree.{TreeState};

    ghost Value = { TreeState };

    ghost view = { λ a. record { files = a.map.entries; is_tree = a.is_tree; spare = a.map.spare } };
}

impl Tree {
    /// A tree without files. It takes no memory until a file is put or room is made.
    #[tactic(auto, using(crate::proofs::TreeLemmas::tree_none))]
    pub fn new(alloc: Global) -> Tree
        ensures { result.files ≡ [] }
    {
        Tree {
            map: PathMap::new(alloc),
        }
    }

    /// The number of files.
    pub fn count(&self) -> usize
        ensures { result ≡ length self.now.files }
    {
        self.map.len()
    }

    /// The bytes of all files, or 2^64-1 where they are more. Takes no memory.
    pub fn bytes(&self) -> u64
        ensures { result ≡ total_bytes self.now.files }
    {
        self.map.sum()
    }

    /// The file with that index in path order.
    pub fn path_at(&self, index: usize) -> Option<&RelPath>
        ensures { option_copied result ≡ slice_get (map (λ e. e.0) self.now.files) index }
    {
        self.map.path_at(index)
    }

    /// The bytes of the file with that index in path order.
    pub fn bytes_at(&self, index: usize) -> Option<&[u8]>
        ensures { option_copied result ≡ slice_get (map (λ e. e.1) self.now.files) index }
    {
        match self.map.as_slice().get(index) {
            Some(entry) => Some(entry.1.as_slice()),
            None => None,
        }
    }

    /// The path and the bytes of the file with that index in path order.
    pub fn file_at(&self, index: usize) -> (&RelPath, &[u8])
        requires { index < length self.now.files }
        ensures { slice_get self.now.files index ≡ Some (result.0.now, result.1.now) }
    {
        let entry = &self.map.as_slice()[index];
        (&entry.0, entry.1.as_slice())
    }

    /// The paths of all files, in path order.
    pub fn paths(&self, alloc: Global) -> Result<Files, Memory>
        ensures { IfOk result (λ paths. paths ≡ map (λ e. e.0) self.now.files) }
    {
        self.map.paths(alloc)
    }

    /// The bytes at the path. Takes no memory.
    pub fn get(&self, path: &RelPath) -> Option<&[u8]>
        ensures { option_copied result ≡ content self.now.files path.now }
    {
        match self.map.get(path) {
            Some(bytes) => Some(bytes.as_slice()),
            None => None,
        }
    }

    /// The entries that come behind the path.
    pub fn behind(&self, path: &RelPath) -> &[(RelPath, Bytes)]
        ensures { result.now ≡ entries_behind self.now.files path.now }
    {
        let entries = self.map.as_slice();
        match self.map.search(path) {
            Ok(at) => &entries[at + 1..],
            Err(at) => &entries[at..],
        }
    }

    /// Whether some file is under the path. Takes no memory.
    pub fn is_folder(&self, path: &RelPath) -> bool
        ensures { result ≡ is_folder self.now.files path.now }
    {
        // All that is under a path comes right behind it.
        match self.behind(path).first() {
            Some(entry) => entry.0.is_under(path),
            None => false,
        }
    }

    /// The files under the path, in path order.
    pub fn under(&self, alloc: Global, path: &RelPath) -> Result<Files, Memory>
        ensures { IfOk result (λ paths. paths ≡ paths_under self.now.files path.now) }
    {
        let mut paths = Vec::new(alloc);
        for entry in self.behind(path) {
            if !entry.0.is_under(path) {
                break;
            }
            paths.push(entry.0.duplicate(alloc)?)?;
        }
        Ok(Files::new(paths))
    }

    /// The file that stands above the path, if there is one. Takes no memory.
    pub fn file_above(&self, path: &RelPath) -> Option<&RelPath>
        ensures { option_copied result ≡ file_above self.now.files path.now }
    {
        let entries = self.map.as_slice();
        match self.map.search(path) {
            // In a tree no file is above another.
            Ok(_) => None,
            Err(0) => None,
            Err(at) => {
                // Only the last file before it can be above it: one between the two would be under the other.
                let before = &entries[at - 1].0;
                if path.is_under(before) {
                    Some(before)
                } else {
                    None
                }
            }
        }
    }

    /// Whether nothing is at, above or under the path. Takes no memory.
    #[tactic(auto, using(crate::proofs::TreeLemmas::fits_is))]
    pub fn fits(&self, path: &RelPath) -> bool
        ensures { result ≡ fits self.now.files path.now }
    {
        self.get(path).is_none() && self.file_above(path).is_none() && !self.is_folder(path)
    }

    /// Puts the bytes at the path, in place of what is there. After Memory the tree is as it was, with no less room.
    pub fn put(&mut self, path: RelPath, bytes: Bytes) -> Result<(), Memory>
        requires { HasRoom self.old.files path }
        ensures ok { OnOk result (self.new.files ≡ put_file self.old.files path bytes) }
        ensures memory { OnErr result (self.new.files ≡ self.old.files) }
        ensures kept { OnErr result (self.old.spare ≤ self.new.spare) }
    {
        self.map.put(path, bytes)?;
        Ok(())
    }

    /// Makes room for that many more files.
    pub fn reserve(&mut self, extra: usize) -> Result<(), Memory>
        ensures same { self.new.files ≡ self.old.files }
        ensures room { OnOk result (extra ≤ self.new.spare) }
        ensures kept { self.old.spare ≤ self.new.spare }
    {
        self.map.reserve(extra)
    }

    /// Puts the bytes at the path into room that is there. Takes no memory, and one of the room at most.
    pub fn put_reserved(&mut self, path: RelPath, bytes: Bytes)
        requires free { HasRoom self.old.files path }
        requires room { 0 < self.old.spare }
        ensures files { self.new.files ≡ put_file self.old.files path bytes }
        ensures spare { self.old.spare ≤ self.new.spare + 1 }
    {
        self.map.put_reserved(path, bytes);
    }

    /// Takes the path away, and answers whether it was there. Takes no memory.
    pub fn remove(&mut self, path: &RelPath) -> bool
        ensures files { self.new.files ≡ remove_file self.old.files path.now }
        ensures was { result ≡ is_present self.old.files path.now }
        ensures spare { self.old.spare ≤ self.new.spare }
    {
        self.map.remove(path)
    }

    /// Sets each path to its bytes, or takes it away where it has none, in room that is there. Takes no memory. It costs a
    /// search for each path; where more than a few come or go, one pass over the files from the first of them on.
    pub fn set_all(&mut self, contents: Vec<(RelPath, Option<Bytes>)>)
        requires rises { is_sorted path_cmp contents.items ≡ true }
        requires tree { IsTree (set_files contents.items self.old.files) }
        requires room { length contents.items ≤ self.old.spare }
        ensures files { self.new.files ≡ set_files contents.items self.old.files }
        ensures spare { self.old.spare ≤ self.new.spare + length contents.items }
    {
        self.map.update_all(contents);
    }

    /// A tree with the same files. How much room it has is its own matter, so this isn't `Duplicate`, whose copies are equal
    /// in all that contracts see.
    pub fn duplicate(&self, alloc: Global) -> Result<Tree, Memory>
        ensures { IfOk result (λ copy. copy.files ≡ self.now.files) }
    {
        let map = self.map.duplicate(alloc)?;
        Ok(Tree { map })
    }
}

/// Whether the files are the same. How much room there is doesn't count.
impl PartialEq for Tree {
    ghost use Rattle.std.specs.Prelude.{◌≡◌, ◌↔◌, IsTrue};
    ghost use Rattle.std.specs.Cmp.{on_per};
    ghost use Rattle.wse_path.specs.Tree.{same_files, same_files_laws};

    ghost eq = { λ a b. same_files a.files b.files };

    ghost laws = { on_per (λ t. t.files) same_files_laws };

    fn eq(&self, other: &Tree) -> bool
        ensures eq { result ≡ same_files self.now.files other.now.files }
        ensures same { IsTrue result ↔ (self.now.files ≡ other.now.files) }
    {
        self.map.as_slice() == other.map.as_slice()
    }
}
