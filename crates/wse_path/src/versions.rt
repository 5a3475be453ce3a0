// Versions of paths.
ghost use Rattle.std.specs.Prelude.{◌≡◌, ◌+◌, ◌-◌, ◌^◌, ◌<◌, ◌≤◌, [], true, length, map, All, IfOk, OnOk, slice_get};
ghost use Rattle.std.specs.FinMap.{is_sorted};
ghost use Rattle.std.specs.Option.{option_copied};
ghost use Rattle.wse_path.specs.Order.{path_cmp};
ghost use Rattle.wse_path.specs.Versions.{version_of, bumped, bumped_by, known};

use crate::memory::Memory;
use crate::path::RelPath;
use crate::path_map::PathMap;
use std::alloc::Global;
use std::marker::Model;

/// A finite map from paths to version numbers above 0. Contracts see its entries in path order, that their paths rise and
/// no number is 0, and how many more find room without taking memory.
pub struct Versions {
    map: PathMap<u32>,
    ghost some: { All (λ e. 0 < e.1) map.entries },
}

// Written out, so that who drops one takes a single step.
impl Drop for Versions {
    fn drop(self) {
        let Versions { map } = self;
        drop(map);
    }
}

impl Model for Versions {
    ghost use Rattle.wse_path.specs.Versions.{VersionsState};

    ghost Value = { VersionsState };

    ghost view = { λ a. record { entries = a.map.entries; rises = a.map.rises; some = a.some; spare = a.map.spare } };
}

impl Versions {
    /// No versions. It takes no memory until room is made.
    pub fn new(alloc: Global) -> Versions
        ensures { result.entries ≡ [] }
    {
        Versions {
            map: PathMap::new(alloc),
        }
    }

    /// The number of paths with an entry.
    pub fn count(&self) -> usize
        ensures { result ≡ length self.now.entries }
    {
        self.map.len()
    }

    /// What the paths with an entry count for: for each 32, and the bytes of its text, or 2^64-1 where that is more.
    /// Takes no memory.
    pub fn known(&self) -> u64
        ensures { result ≡ known self.now.entries }
    {
        self.map.sum()
    }

    /// The path of the entry with that index in path order.
    pub fn path_at(&self, index: usize) -> Option<&RelPath>
        ensures { option_copied result ≡ slice_get (map (λ e. e.0) self.now.entries) index }
    {
        self.map.path_at(index)
    }

    /// The version of the entry with that index in path order.
    pub fn number_at(&self, index: usize) -> Option<u32>
        ensures { result ≡ slice_get (map (λ e. e.1) self.now.entries) index }
    {
        match self.map.as_slice().get(index) {
            Some(entry) => Some(entry.1),
            None => None,
        }
    }

    /// The version of the path: 0 where it has no entry. Takes no memory.
    pub fn get(&self, path: &RelPath) -> u32
        ensures { result ≡ version_of self.now.entries path.now }
    {
        self.map.get(path).copied().unwrap_or(0)
    }

    /// Makes room for that many more entries.
    pub fn reserve(&mut self, extra: usize) -> Result<(), Memory>
        ensures same { self.new.entries ≡ self.old.entries }
        ensures room { OnOk result (extra ≤ self.new.spare) }
        ensures kept { self.old.spare ≤ self.new.spare }
    {
        self.map.reserve(extra)
    }

    /// Raises the path's version, which ends at 2^31-1 (LSP 3.17, "integer"). Takes no memory, and one of the room at
    /// most.
    pub fn bump(&mut self, path: RelPath, by: u32)
        requires some { 0 < by }
        requires room { 0 < self.old.spare }
        requires small { version_of self.old.entries path + by ≤ 2 ^ 31 - 1 }
        ensures entries { self.new.entries ≡ bumped self.old.entries path by }
        ensures spare { self.old.spare ≤ self.new.spare + 1 }
    {
        let number = self.get(&path) + by;
        self.map.put_reserved(path, number);
    }

    /// Raises the versions of these paths, in room that is there. Takes no memory. It costs a search
    /// for each path; where more than a few are new, one pass over the entries from the first of them on.
    pub fn bump_all(&mut self, bumps: Vec<(RelPath, u32)>)
        requires rises { is_sorted path_cmp bumps.items ≡ true }
        requires some { All (λ b. 0 < b.1) bumps.items }
        requires room { length bumps.items ≤ self.old.spare }
        requires small { All (λ b. version_of self.old.entries b.0 + b.1 ≤ 2 ^ 31 - 1) bumps.items }
        ensures entries { self.new.entries ≡ bumped_by bumps.items self.old.entries }
        ensures spare { self.old.spare ≤ self.new.spare + length bumps.items }
    {
        self.map.update_all(bumps);
    }

    /// Versions with the same entries. How much room they have is their own matter, so this isn't `Duplicate`, whose copies
    /// are equal in all that contracts see.
    pub fn duplicate(&self, alloc: Global) -> Result<Versions, Memory>
        ensures { IfOk result (λ copy. copy.entries ≡ self.now.entries) }
    {
        let map = self.map.duplicate(alloc)?;
        Ok(Versions { map })
    }
}

/// Whether the entries are the same. How much room there is doesn't count.
impl PartialEq for Versions {
    ghost use Rattle.std.specs.Prelude.{◌≡◌, ◌↔◌, IsTrue};
    ghost use Rattle.std.specs.Cmp.{on_per};
    ghost use Rattle.wse_path.specs.Versions.{same_entries, same_entries_laws};

    ghost eq = { λ a b. same_entries a.entries b.entries };

    ghost laws = { on_per (λ v. v.entries) same_entries_laws };

    fn eq(&self, other: &Versions) -> bool
        ensures eq { result ≡ same_entries self.now.entries other.now.entries }
        ensures same { IsTrue result ↔ (self.now.entries ≡ other.now.entries) }
    {
        self.map.as_slice() == other.map.as_slice()
    }
}
