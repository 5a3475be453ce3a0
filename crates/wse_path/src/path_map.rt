// Finite maps from paths.
ghost use Rattle.std.specs.Prelude.{◌≡◌, ◌+◌, ◌-◌, ◌<◌, ◌≤◌, [], length, map, take, remove, is_some, true, IfOk, IfErr, OnOk, OnErr, slice_get};
ghost use Rattle.std.specs.FinMap.{put, is_sorted};
ghost use Rattle.std.specs.Option.{option_copied};
ghost use Rattle.wse_path.specs.Order.{path_cmp};
ghost use Rattle.wse_path.specs.PathMap.{weight_of, capped, value_at, without, set_value, update_all};
ghost use Rattle.wse_path.specs.Place.{HasKeyAt, IsGapAt, all_before};

use crate::items::{Duplicate, Files};
use crate::memory::Memory;
use crate::merge::{Update, restore, set_each, unload};
use crate::path::RelPath;
use crate::row::{Row, Weighed};
use std::alloc::Global;
use std::marker::Model;

/// How many paths come or go one by one at most. Making room for one is a move of the entries behind it in one piece, which
/// costs about a hundredth of a pass over them.
const FEW: usize = 100;

/// A finite map from paths, which keeps the sum of what its entries count for. Contracts see its entries in path order,
/// that their paths rise, and how many more find room without taking memory.
pub struct PathMap<V: Weighed> {
    row: Row<V>,
    // The entries behind those that are being changed, last first. Between calls there are none.
    rest: Vec<(RelPath, V)>,
    ghost rises: { is_sorted path_cmp row.items ≡ true },
}

// Written out, so that who drops one takes a single step.
impl<V: Weighed> Drop for PathMap<V> {
    fn drop(self) {
        let PathMap { row, rest } = self;
        drop(row);
        drop(rest);
    }
}

impl<V: Weighed> Model for PathMap<V> {
    ghost use Rattle.std.specs.Prelude.{◌≡◌, ◌-◌, [], length, min};
    ghost use Rattle.std.specs.Vec.{vec_capacity};
    ghost use Rattle.wse_path.specs.PathMap.{MapState};

    ghost Value = { MapState V };

    ghost view = { λ a. record {
      entries = a.row.items;
      rises = a.rises;
      spare = min a.row.capacity (vec_capacity a.rest) - length a.row.items;
    } };

    ghost invariant = { λ a. a.rest.items ≡ [] };
}

// Where the path stands among entries whose paths rise, or would stand.
fn search_sorted<V: Drop>(entries: &[(RelPath, V)], path: &RelPath) -> Result<usize, usize>
    requires { is_sorted path_cmp entries.now ≡ true }
    ensures found { IfOk result (λ at. (at < length entries.now) × HasKeyAt path_cmp entries.now path.now at) }
    ensures absent { IfErr result (IsGapAt path_cmp entries.now path.now) }
{
    entries.binary_search_by(|entry| entry.0.cmp(path))
}

impl<V: Weighed> PathMap<V> {
    /// A map without entries. It takes no memory until an entry is put or room is made.
    pub fn new(alloc: Global) -> PathMap<V>
        ensures { result.entries ≡ [] }
    {
        PathMap {
            row: Row::new(alloc),
            rest: Vec::new(alloc),
        }
    }

    /// The number of entries.
    pub fn len(&self) -> usize
        ensures { result ≡ length self.now.entries }
    {
        self.row.len()
    }

    /// The entries as a slice, in path order.
    pub fn as_slice(&self) -> &[(RelPath, V)]
        ensures { result.now ≡ self.now.entries }
    {
        self.row.as_slice()
    }

    /// What the entries count for together, or 2^64-1 where that is greater. Takes no memory.
    pub fn sum(&self) -> u64
        ensures { result ≡ capped (weight_of V.weight self.now.entries) }
    {
        self.row.sum()
    }

    /// The path of the entry with that index in path order.
    pub fn path_at(&self, index: usize) -> Option<&RelPath>
        ensures { option_copied result ≡ slice_get (map (λ e. e.0) self.now.entries) index }
    {
        match self.as_slice().get(index) {
            Some(entry) => Some(&entry.0),
            None => None,
        }
    }

    /// The paths of all entries, in path order.
    pub fn paths(&self, alloc: Global) -> Result<Files, Memory>
        ensures { IfOk result (λ paths. paths ≡ map (λ e. e.0) self.now.entries) }
    {
        let mut paths = Vec::with_capacity(alloc, self.len())?;
        for entry in self.as_slice() {
            paths.push(entry.0.duplicate(alloc)?)?;
        }
        Ok(Files::new(paths))
    }

    /// Where the path stands among the entries, or would stand.
    pub fn search(&self, path: &RelPath) -> Result<usize, usize>
        ensures found { IfOk result (λ at. (at < length self.now.entries) × HasKeyAt path_cmp self.now.entries path.now at) }
        ensures absent { IfErr result (IsGapAt path_cmp self.now.entries path.now) }
    {
        search_sorted(self.as_slice(), path)
    }

    // How many entries come before the path.
    fn place(&self, path: &RelPath) -> usize
        ensures within { result ≤ length self.now.entries }
        ensures before { all_before path_cmp (take result self.now.entries) path.now ≡ true }
    {
        match self.search(path) {
            Ok(at) => at,
            Err(at) => at,
        }
    }

    /// The value at the path. Takes no memory.
    pub fn get(&self, path: &RelPath) -> Option<&V>
        ensures { option_copied result ≡ value_at self.now.entries path.now }
    {
        match self.search(path) {
            Ok(at) => {
                let entries = self.as_slice();
                Some(&entries[at].1)
            }
            Err(_) => None,
        }
    }

    /// Makes room for that many more entries.
    pub fn reserve(&mut self, extra: usize) -> Result<(), Memory>
        ensures same { self.new.entries ≡ self.old.entries }
        ensures room { OnOk result (extra ≤ self.new.spare) }
        ensures kept { self.old.spare ≤ self.new.spare }
    {
        self.row.reserve(extra)?;
        // All entries may have to be moved into the rest.
        self.rest.reserve(self.row.capacity())?;
        Ok(())
    }

    /// Puts the value at the path, in place of what is there. After Memory the map is as it was, with no less room.
    pub fn put(&mut self, path: RelPath, value: V) -> Result<(), Memory>
        ensures ok { OnOk result (self.new.entries ≡ put path_cmp path value self.old.entries) }
        ensures memory { OnErr result (self.new.entries ≡ self.old.entries) }
        ensures kept { OnErr result (self.old.spare ≤ self.new.spare) }
    {
        match self.search(&path) {
            Ok(at) => {
                self.row.set(at, value);
                Ok(())
            }
            Err(at) => {
                self.row.insert(at, path, value)?;
                Ok(())
            }
        }
    }

    /// Puts the value at the path into room that is there. Takes no memory, and one of the room at most.
    pub fn put_reserved(&mut self, path: RelPath, value: V)
        requires { 0 < self.old.spare }
        ensures entries { self.new.entries ≡ put path_cmp path value self.old.entries }
        ensures spare { self.old.spare ≤ self.new.spare + 1 }
    {
        match self.search(&path) {
            Ok(at) => self.row.set(at, value),
            Err(at) => match self.row.insert(at, path, value) {
                Ok(()) => (),
                Err(Memory) => unreachable!(),
            },
        }
    }

    /// Takes the path away, and answers whether it was there. Takes no memory.
    pub fn remove(&mut self, path: &RelPath) -> bool
        ensures entries { self.new.entries ≡ without self.old.entries path.now }
        ensures was { result ≡ is_some (value_at self.old.entries path.now) }
        ensures spare { self.old.spare ≤ self.new.spare }
    {
        match self.search(path) {
            Ok(at) => {
                self.row.remove(at);
                true
            }
            Err(_) => false,
        }
    }

    /// Takes the entry with that index in path order away. Takes no memory.
    pub fn remove_at(&mut self, at: usize)
        requires { at < length self.old.entries }
        ensures entries { self.new.entries ≡ remove self.old.entries at }
        ensures spare { self.old.spare ≤ self.new.spare }
    {
        self.row.remove(at);
    }

    // How many of the paths come or go.
    fn moves<C: Update<V>>(&self, items: &[(RelPath, C)]) -> usize {
        let mut moves: usize = 0;
        for item in items {
            if self.get(&item.0).is_some() != item.1.keeps() {
                moves = moves.saturating_add(1);
            }
        }
        moves
    }

    // Sets the path to what its item makes of the value there.
    fn update_one<C: Update<V>>(&mut self, path: RelPath, item: C)
        requires room { 0 < self.old.spare }
        ensures entries { self.new.entries
            ≡ set_value self.old.entries path (C.updated item (value_at self.old.entries path)) }
        ensures spare { self.old.spare ≤ self.new.spare + 1 }
    {
        match item.update(self.get(&path)) {
            Some(value) => self.put_reserved(path, value),
            None => {
                let _ = self.remove(&path);
            }
        }
    }

    // One path after another.
    fn update_singly<C: Update<V>>(&mut self, items: Vec<(RelPath, C)>)
        requires room { length items.items ≤ self.old.spare }
        ensures entries { self.new.entries ≡ update_all C.updated items.items self.old.entries }
        ensures spare { self.old.spare ≤ self.new.spare + length items.items }
    {
        for (path, item) in items {
            self.update_one(path, item);
        }
    }

    // One pass over the entries from the first of the paths on.
    fn update_in_a_pass<C: Update<V>>(&mut self, items: Vec<(RelPath, C)>)
        requires rises { is_sorted path_cmp items.items ≡ true }
        requires room { length items.items ≤ self.old.spare }
        ensures entries { self.new.entries ≡ update_all C.updated items.items self.old.entries }
        ensures spare { self.old.spare ≤ self.new.spare + length items.items }
    {
        let Some(first) = items.first() else {
            return;
        };
        let at = self.place(&first.0);
        unload(&mut self.row, &mut self.rest, at);
        set_each(&mut self.row, &mut self.rest, items);
        restore(&mut self.row, &mut self.rest);
    }

    /// Sets each path to what its item makes of the value there, in room that is there. Takes no memory. It costs a
    /// search for each path; where more than a few come or go, one pass over the entries from the first of them on.
    pub fn update_all<C: Update<V>>(&mut self, items: Vec<(RelPath, C)>)
        requires rises { is_sorted path_cmp items.items ≡ true }
        requires room { length items.items ≤ self.old.spare }
        ensures entries { self.new.entries ≡ update_all C.updated items.items self.old.entries }
        ensures spare { self.old.spare ≤ self.new.spare + length items.items }
    {
        if self.moves(&items) <= FEW {
            self.update_singly(items);
        } else {
            self.update_in_a_pass(items);
        }
    }
}

impl<V: Weighed + Duplicate> PathMap<V> {
    /// A map with the same entries. How much room it has is its own matter.
    pub fn duplicate(&self, alloc: Global) -> Result<PathMap<V>, Memory>
        ensures { IfOk result (λ copy. copy.entries ≡ self.now.entries) }
    {
        Ok(PathMap {
            row: self.row.duplicate(alloc)?,
            rest: Vec::new(alloc),
        })
    }
}
