// Entries in a row, with the sum of what they count for.
ghost use Rattle.std.specs.Prelude.{◌≡◌, ℕ, ◌+◌, ◌<◌, ◌≤◌, ◌∷◌, ◌++◌, [], length, insert, remove, slice_set, slice_index_or, IfOk, OnOk, OnErr, IsOk};
ghost use Rattle.wse_path.specs.Path.{Path, text_of};
ghost use Rattle.wse_path.specs.PathMap.{weight_of, capped};

use crate::items::{Duplicate, Items};
use crate::memory::Memory;
use crate::path::RelPath;
use std::alloc::Global;
use std::marker::Model;

/// A value that counts for something in the sum of its map.
pub trait Weighed: Drop {
    ghost weight: { Path → Self → ℕ };

    /// What a path with this value counts for.
    fn weigh(&self, path: &RelPath) -> u64
        ensures { result ≡ weight path.now self.now };
}

/// A file counts for its bytes.
impl Weighed for Items<u8> {
    ghost weight = { λ path bytes. length bytes };

    fn weigh(&self, _path: &RelPath) -> u64 {
        self.len() as u64
    }
}

/// A path with a number counts for 32 and the bytes of its text. This project's own rule.
impl Weighed for u32 {
    ghost weight = { λ path number. 32 + length (text_of path) };

    fn weigh(&self, path: &RelPath) -> u64 {
        32 + path.text_len() as u64
    }
}

/// Entries in a row.
pub struct Row<V: Weighed> {
    all: Vec<(RelPath, V)>,
    sum: u64,
}

// Written out, so that who drops one takes a single step.
impl<V: Weighed> Drop for Row<V> {
    fn drop(self) {
        let Row { all, sum: _ } = self;
        drop(all);
    }
}

impl<V: Weighed> Model for Row<V> {
    ghost use Rattle.std.specs.Prelude.{◌≡◌};
    ghost use Rattle.std.specs.Vec.{vec_capacity};
    ghost use Rattle.wse_path.specs.PathMap.{RowState, weight_of, capped};

    ghost Value = { RowState V };

    ghost view = { λ a. record { items = a.all.items; capacity = vec_capacity a.all } };

    ghost invariant = { λ a. a.sum ≡ capped (weight_of V.weight a.all.items) };
}

fn counted_anew<V: Weighed>(all: &[(RelPath, V)]) -> u64
    ensures { result ≡ capped (weight_of V.weight all.now) }
{
    let mut sum: u64 = 0;
    for entry in all {
        sum = sum.saturating_add(entry.1.weigh(&entry.0));
    }
    sum
}

/// The sum after what is gone.
fn sum_without<V: Weighed>(all: &[(RelPath, V)], sum: u64, gone: u64) -> u64
    requires { sum ≡ capped (weight_of V.weight all.now + gone) }
    ensures { result ≡ capped (weight_of V.weight all.now) }
{
    if sum < u64::MAX {
        return sum - gone;
    }
    // A sum at its end doesn't tell what is left.
    counted_anew(all)
}

impl<V: Weighed> Row<V> {
    /// A row without entries. Takes no memory.
    pub fn new(alloc: Global) -> Row<V>
        ensures { result.items ≡ [] }
    {
        Row {
            all: Vec::new(alloc),
            sum: 0,
        }
    }

    /// How many entries there are.
    pub fn len(&self) -> usize
        ensures { result ≡ length self.now.items }
    {
        self.all.len()
    }

    /// The entries as a slice.
    pub fn as_slice(&self) -> &[(RelPath, V)]
        ensures { result.now ≡ self.now.items }
    {
        &self.all
    }

    /// What the entries count for together, or 2^64-1 where that is greater.
    pub fn sum(&self) -> u64
        ensures { result ≡ capped (weight_of V.weight self.now.items) }
    {
        self.sum
    }

    /// How many entries the row holds without taking memory.
    pub fn capacity(&self) -> usize
        ensures { result ≡ self.now.capacity }
    {
        self.all.capacity()
    }

    /// Makes room for that many more entries.
    pub fn reserve(&mut self, extra: usize) -> Result<(), Memory>
        ensures same { self.new.items ≡ self.old.items }
        ensures room { OnOk result (length self.old.items + extra ≤ self.new.capacity) }
        ensures kept { self.old.capacity ≤ self.new.capacity }
    {
        self.all.reserve(extra)?;
        Ok(())
    }

    /// Puts an entry behind the others, into room that is there. Takes no memory.
    pub fn push(&mut self, path: RelPath, value: V)
        requires { length self.old.items < self.old.capacity }
        ensures items { self.new.items ≡ self.old.items ++ (path, value) ∷ [] }
        ensures capacity { self.new.capacity ≡ self.old.capacity }
    {
        let come = value.weigh(&path);
        self.all.push_reserved((path, value));
        self.sum = self.sum.saturating_add(come);
    }

    /// Takes the last entry away. Takes no memory.
    pub fn pop(&mut self) -> (RelPath, V)
        requires { 0 < length self.old.items }
        ensures items { self.old.items ≡ self.new.items ++ result ∷ [] }
        ensures capacity { self.new.capacity ≡ self.old.capacity }
    {
        let (path, value) = self.all.take_last();
        let gone = value.weigh(&path);
        self.sum = sum_without(&self.all, self.sum, gone);
        (path, value)
    }

    /// Puts an entry at a place. After Memory the row is as it was.
    pub fn insert(&mut self, at: usize, path: RelPath, value: V) -> Result<(), Memory>
        requires { at ≤ length self.old.items }
        ensures ok { OnOk result (self.new.items ≡ insert self.old.items at (path, value)) }
        ensures memory { OnErr result (self.new.items ≡ self.old.items) }
        ensures succeeds { length self.old.items < self.old.capacity → IsOk result }
        ensures kept { self.old.capacity ≤ self.new.capacity }
    {
        let come = value.weigh(&path);
        self.all.insert(at, (path, value))?;
        self.sum = self.sum.saturating_add(come);
        Ok(())
    }

    /// Puts a value in place of the one at a place. Takes no memory.
    pub fn set(&mut self, at: usize, value: V)
        requires { at < length self.old.items }
        ensures items { (d : Path × V) → self.new.items ≡ slice_set self.old.items at ((slice_index_or self.old.items at d).0, value) }
        ensures capacity { self.new.capacity ≡ self.old.capacity }
    {
        let entry = &self.all[at];
        let come = value.weigh(&entry.0);
        let gone = entry.1.weigh(&entry.0);
        self.all[at].1 = value;
        self.sum = sum_without(&self.all, self.sum.saturating_add(come), gone);
    }

    /// Takes the entry at a place away. Takes no memory.
    pub fn remove(&mut self, at: usize)
        requires { at < length self.old.items }
        ensures items { self.new.items ≡ remove self.old.items at }
        ensures capacity { self.new.capacity ≡ self.old.capacity }
    {
        let (path, value) = self.all.remove(at);
        let gone = value.weigh(&path);
        self.sum = sum_without(&self.all, self.sum, gone);
    }
}

impl<V: Weighed + Duplicate> Row<V> {
    /// Equal entries. How much room there is is the copy's own matter.
    pub fn duplicate(&self, alloc: Global) -> Result<Row<V>, Memory>
        ensures { IfOk result (λ copy. copy.items ≡ self.now.items) }
    {
        let mut all = Vec::with_capacity(alloc, self.all.len())?;
        for entry in &self.all {
            all.push((entry.0.duplicate(alloc)?, entry.1.duplicate(alloc)?))?;
        }
        Ok(Row { all, sum: self.sum })
    }
}
