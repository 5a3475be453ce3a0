// Who holds which path.
ghost use Rattle.std.specs.Prelude.{◌≡◌, ◌+◌, ◌≤◌, ℕ, [], ◌∷◌, Some, None, not, ◌&&◌, position, length, map, filter, nat_eq, remove, slice_index_or, ◌<◌, if◌then◌else◌, IfOk, IfErr, OnOk, OnErr};
ghost use Rattle.wse_path.specs.Order.{is_named};
ghost use Rattle.wse_path.specs.Path.{Path};
ghost use Rattle.wse_locks.specs.Locks.{Holders, holder, holds, is_held, held, TellsHeld};

use crate::refused::{LockRefused, NotHeld};
use std::alloc::Global;
use std::marker::Model;
use wse_path::{Duplicate, Files, Memory, PathMap, RelPath};

/// Who holds which path, present or not: a finite map from paths to participants. A lock stops everybody else. This
/// project's own rule. Contracts see the locks in path order, and that their paths rise.
pub struct Locks {
    map: PathMap<u32>,
}

// Written out, so that who drops one takes a single step.
impl Drop for Locks {
    fn drop(self) {
        let Locks { map } = self;
        drop(map);
    }
}

impl Model for Locks {
    ghost use Rattle.wse_locks.specs.Locks.{LocksState};

    ghost Value = { LocksState };

    ghost view = { λ a. record { entries = a.map.entries; rises = a.map.rises } };
}

/// Equal paths.
fn copies(alloc: Global, files: &[RelPath]) -> Result<Vec<RelPath>, Memory>
    ensures { IfOk result (λ paths. paths.items ≡ files.now) }
{
    let mut paths = Vec::with_capacity(alloc, files.len())?;
    for file in files {
        paths.push(file.duplicate(alloc)?)?;
    }
    Ok(paths)
}

/// Gives the paths to the participant, in room that is there.
fn give_all(map: &mut PathMap<u32>, paths: Vec<RelPath>, by: u32)
    requires { length paths.items ≤ map.old.spare }
    ensures { (q : Path) → holder map.new.entries q ≡ (if is_named paths.items q then Some by else holder map.old.entries q) }
{
    for path in paths {
        map.put_reserved(path, by);
    }
}

/// Takes the paths away.
fn free_all(map: &mut PathMap<u32>, files: &[RelPath])
    ensures { (q : Path) → holder map.new.entries q ≡ (if is_named files.now q then None else holder map.old.entries q) }
{
    for file in files {
        let _ = map.remove(file);
    }
}

/// Takes the entry with that index away, if the participant holds it.
fn leave_at(map: &mut PathMap<u32>, at: usize, by: u32)
    requires { at < length map.old.entries }
    ensures { (d : Path × ℕ) → map.new.entries
        ≡ (if nat_eq (slice_index_or map.old.entries at d).1 by then remove map.old.entries at else map.old.entries) }
{
    if map.as_slice()[at].1 == by {
        map.remove_at(at);
    }
}

/// Takes away all that the participant holds, from the last entry on.
fn leave_all(map: &mut PathMap<u32>, by: u32)
    ensures { map.new.entries ≡ filter (λ e. not (nat_eq e.1 by)) map.old.entries }
{
    let mut at = map.len();
    while at > 0 {
        at -= 1;
        leave_at(map, at, by);
    }
}

impl Locks {
    /// No locks. Takes no memory.
    pub fn new(alloc: Global) -> Locks
        ensures { result.entries ≡ [] }
    {
        Locks {
            map: PathMap::new(alloc),
        }
    }

    /// Who holds the path. Takes no memory.
    pub fn holder(&self, path: &RelPath) -> Option<u32>
        ensures { result ≡ holder self.now.entries path.now }
    {
        self.map.get(path).copied()
    }

    fn holds(&self, by: u32, path: &RelPath) -> bool
        ensures { result ≡ holds self.now.entries by path.now }
    {
        match self.holder(path) {
            Some(holder) => holder == by,
            None => false,
        }
    }

    // Keeps the path among the others' where another holds it.
    fn note_held(
        &self,
        alloc: Global,
        by: u32,
        path: &RelPath,
        others: &mut PathMap<u32>,
    ) -> Result<(), Memory>
        ensures { OnOk result ((q : Path) → holder others.new.entries q
            ≡ (if is_named (path.now ∷ []) q && is_held self.now.entries by q then holder self.now.entries q else holder others.old.entries q)) }
    {
        match self.holder(path) {
            Some(holder) => {
                if holder != by {
                    others.put(path.duplicate(alloc)?, holder)?;
                }
                Ok(())
            }
            None => Ok(()),
        }
    }

    // The named paths that another holds.
    fn held(&self, alloc: Global, by: u32, files: &[RelPath]) -> Result<Files, Memory>
        ensures { IfOk result (λ paths. paths ≡ held self.now.entries by files.now) }
    {
        let mut others = PathMap::new(alloc);
        for file in files {
            self.note_held(alloc, by, file, &mut others)?;
        }
        others.paths(alloc)
    }

    /// Gives the participant all of these paths, or none where another holds one. One's own may be taken again. After a
    /// refusal nothing changed.
    pub fn take(&mut self, alloc: Global, by: u32, files: &[RelPath]) -> Result<(), LockRefused>
        ensures free { OnOk result (held self.old.entries by files.now ≡ []) }
        ensures taken { OnOk result ((q : Path) → holder self.new.entries q
            ≡ (if is_named files.now q then Some by else holder self.old.entries q)) }
        ensures held { IfErr result (TellsHeld (held self.old.entries by files.now)) }
        ensures kept { OnErr result (self.new.entries ≡ self.old.entries) }
    {
        let held = self.held(alloc, by, files)?;
        if !held.is_empty() {
            return Err(LockRefused::Held { files: held });
        }
        let paths = copies(alloc, files)?;
        self.map.reserve(paths.len())?;
        give_all(&mut self.map, paths, by);
        Ok(())
    }

    /// Takes these paths from the participant, or none where it doesn't hold one. A path that is named twice is freed
    /// once. Takes no memory. After a refusal nothing changed.
    pub fn free(&mut self, by: u32, files: &[RelPath]) -> Result<(), NotHeld>
        ensures own { OnOk result (position (λ p. not (holds self.old.entries by p)) files.now ≡ None) }
        ensures freed { OnOk result ((q : Path) → holder self.new.entries q
            ≡ (if is_named files.now q then None else holder self.old.entries q)) }
        ensures not_held { IfErr result (λ why. position (λ p. not (holds self.old.entries by p)) files.now ≡ Some why.index) }
        ensures kept { OnErr result (self.new.entries ≡ self.old.entries) }
    {
        if let Some(index) = self.first_not_held(by, files) {
            return Err(NotHeld { index });
        }
        free_all(&mut self.map, files);
        Ok(())
    }

    fn first_not_held(&self, by: u32, files: &[RelPath]) -> Option<usize>
        ensures { result ≡ position (λ p. not (holds self.now.entries by p)) files.now }
    {
        files.iter().position(|file| !self.holds(by, file))
    }

    /// Takes all that the participant holds from it, and nothing else. Takes no memory.
    pub fn leave(&mut self, by: u32)
        ensures { (q : Path) → holder self.new.entries q
            ≡ (if holds self.old.entries by q then None else holder self.old.entries q) }
    {
        leave_all(&mut self.map, by);
    }

    /// Equal locks.
    pub fn duplicate(&self, alloc: Global) -> Result<Locks, Memory>
        ensures { IfOk result (λ copy. copy.entries ≡ self.now.entries) }
    {
        let map = self.map.duplicate(alloc)?;
        Ok(Locks { map })
    }
}
