// A disk in memory.
ghost use Rattle.std.specs.Prelude.{◌≡◌, ◌↔◌, ◌≤◌, ◌<◌, ◌+◌, ◌^◌, ◌∷◌, ◌++◌, [], Bool, Some, map, length, option_map, is_some, IsErr, IsErrOf, IsTrue, IfOk, OnOk, OnErr, false, true, is_err, ◌||◌, slice_range};
ghost use Rattle.wse_path.specs.Causes.{HasCause};
ghost use Rattle.wse_path.specs.Tree.{content, fits, HasRoom, IsTree};
ghost use Rattle.wse_disk.specs.Causes.{HasReadCause};
ghost use Rattle.wse_disk.specs.Reading.{area_of};
ghost use Rattle.wse_disk.specs.Reading.Write.{Stores, Erases, Patches};
ghost use Rattle.wse_disk.specs.Calls.{bytes_or_none};
ghost use Rattle.wse_disk.specs.Standing.{WriteLeaves, SyncLeaves, IsImageOf};
ghost use Rattle.wse_disk.specs.CallCounts.{uncalled, next_fails, finished};
ghost use Rattle.wse_disk.specs.Replay.{held, drafted, first_of, replay, pending_at, with_all};
ghost use Rattle.wse_disk.specs.Chosen.{IsChosen};
ghost use Rattle.wse_disk.specs.Told.{IsAtRest};
ghost use Rattle.wse_disk.specs.MemState.{reading, standing, KeepsImages, KeepsImages-prop, IsUnchanged, CountsOnly, Notes};

use crate::area::Area;
use crate::areas::Areas;
use crate::call::Call;
use crate::counts::CallCounts;
use crate::disk::{Disk, Failed, Place, ReadErr};
use crate::draft::Draft;
use crate::image::{Whole, image_after};
use crate::lazy::LazyTree;
use crate::notes::{erase_noted, keep_first, patch_noted, store_noted, sync_noted};
use std::alloc::Global;
use std::marker::Model;
use wse_path::{Bytes, Memory, RelPath, Tree};

/// A disk in memory, which tells all. Each call of `Disk` and `Place` but `moment` is counted, and fails where its number
/// is in a list; a store, an erase, an area write and a sync fail for want of memory too. It keeps a record of these four,
/// but for those that found no memory. Its moment is how many the record has. Contracts see what it had at first, the
/// record and the counts.
#[derive(Drop)]
pub struct MemDisk {
    alloc: Global,
    // What it had at first, kept from the first call of the record on.
    first: Option<Draft>,
    files: LazyTree,
    areas: Areas,
    calls: Vec<Call>,
    counts: CallCounts,
    ghost sound: { KeepsImages (first_of first (held files.files areas)) calls.items } by { KeepsImages-prop _ _ },
}

impl Model for MemDisk {
    ghost use Rattle.wse_disk.specs.Replay.{held, first_of};
    ghost use Rattle.wse_disk.specs.MemState.{MemState, IsHeld};

    ghost Value = { MemState };

    ghost view = { λ a. record {
      first = first_of a.first (held a.files.files a.areas);
      calls = a.calls.items;
      counts = a.counts;
      sound = a.sound;
    } };

    ghost invariant = { λ a. IsHeld a.first (held a.files.files a.areas) a.calls.items a.files.changes };
}

impl MemDisk {
    /// A disk that holds the tree, and no bytes in its areas. Those of its calls fail whose number, counted from 1, is in the
    /// list. Takes no memory.
    pub fn new(alloc: Global, tree: Tree, fails: Vec<u64>) -> MemDisk
        ensures files { (reading result).files ≡ tree.files }
        ensures areas { (area : Area) → area_of area (reading result) ≡ [] }
        ensures calls { result.calls ≡ [] }
        ensures counts { result.counts ≡ uncalled fails.items }
    {
        MemDisk::of(alloc, tree, Areas::new(alloc), fails)
    }

    /// A disk that holds the tree, and whose calls fail for want of memory alone.
    pub fn never_failing(alloc: Global, tree: Tree) -> MemDisk
        ensures files { (reading result).files ≡ tree.files }
        ensures areas { (area : Area) → area_of area (reading result) ≡ [] }
        ensures calls { result.calls ≡ [] }
        ensures counts { result.counts ≡ uncalled [] }
    {
        MemDisk::new(alloc, tree, Vec::new(alloc))
    }

    pub(crate) fn of(alloc: Global, tree: Tree, areas: Areas, fails: Vec<u64>) -> MemDisk
        ensures reading { reading result ≡ held tree.files areas }
        ensures calls { result.calls ≡ [] }
        ensures counts { result.counts ≡ uncalled fails.items }
    {
        MemDisk {
            alloc,
            first: None,
            files: LazyTree::new(alloc, tree),
            areas,
            calls: Vec::new(alloc),
            counts: CallCounts::new(fails),
        }
    }

    /// What the disk holds. Takes no memory.
    pub fn into_tree(self) -> Tree
        ensures { result.files ≡ (reading self).files }
    {
        self.files.into_tree()
    }

    /// The bytes of the area.
    pub fn area(&self, area: Area) -> &[u8]
        ensures { result.now ≡ area_of area (reading self.now) }
    {
        self.areas.bytes(area)
    }

    /// Whether nothing is at, above or under the path. Takes no memory.
    pub fn fits(&mut self, path: &RelPath) -> bool
        ensures fits { result ≡ fits (reading self.new).files path.now }
        ensures same { IsUnchanged self.old self.new }
    {
        self.files.fits(path)
    }

    /// Whether a file may be stored or erased at the path: it is there, or nothing is above or under it. Takes no memory.
    pub fn has_room(&mut self, path: &RelPath) -> bool
        ensures room { IsTrue result ↔ HasRoom (reading self.new).files path.now }
        ensures same { IsUnchanged self.old self.new }
    {
        self.read_size(path).is_some() || self.fits(path)
    }

    /// How many calls answered `Failed`, those that found no memory among them. It stops at 2^64-1.
    pub fn faults(&self) -> u64
        ensures { result ≡ self.now.counts.faults }
    {
        self.counts.faults()
    }

    /// How many calls failed for want of memory. It stops at 2^64-1.
    pub fn starved(&self) -> u64
        ensures { result ≡ self.now.counts.starved }
    {
        self.counts.starved()
    }

    /// The stores, erases, area writes and syncs, but for those that found no memory.
    pub fn calls(&self) -> &[Call]
        ensures { result.now ≡ self.now.calls }
    {
        &self.calls
    }

    // What it had at first.
    fn first_draft(&self) -> Result<Draft, Memory>
        ensures { IfOk result (λ draft. drafted draft ≡ self.now.first) }
    {
        match &self.first {
            Some(draft) => draft.duplicate(self.alloc),
            None => Draft::of(self.alloc, self.files.tree(), &self.areas),
        }
    }

    /// What a crash at that moment may have left, as a disk on which nothing is pending and none of whose calls is to fail.
    /// The choice says what becomes of the writes since the last sync that succeeded before it, those that failed among
    /// them, in order and counted from 0. Choice 0 keeps none of them, and 1 keeps all. Choice 2 makes each stored or
    /// erased path absent and each written byte zero. Another number `c` does to the i-th of them what choice
    /// `c / 3^(i mod 40) mod 3` does, in whole numbers. Gaps in an area are zeros. What is no tree is taken as choice 0.
    pub fn image_at(&self, moment: u64, choice: u64) -> Result<MemDisk, Memory>
        requires { moment ≤ length self.now.calls }
        ensures image { IfOk result (λ d. IsImageOf (pending_at (standing self.now) moment) (reading d)) }
        ensures chosen { IfOk result (λ d. IsChosen choice (pending_at (standing self.now) moment) (reading d)) }
        ensures none { choice ≡ 0 → IfOk result (λ d. reading d ≡ (pending_at (standing self.now) moment).base) }
        ensures all { choice ≡ 1 → IfOk result (λ d. IsTree (with_all (pending_at (standing self.now) moment)).files
            → reading d ≡ with_all (pending_at (standing self.now) moment)) }
        ensures rests { IfOk result (λ d. IsAtRest (Some (standing d))) }
        ensures calls { IfOk result (λ d. d.calls ≡ []) }
        ensures counts { IfOk result (λ d. d.counts ≡ uncalled []) }
    {
        let start = self.first_draft()?;
        let calls = &self.calls[..moment as usize];
        let Whole { tree, areas } = image_after(self.alloc, start, calls, choice)?;
        Ok(MemDisk::of(self.alloc, tree, areas, Vec::new(self.alloc)))
    }

    // Counts a call that changes nothing, which fails where its number is in the list.
    fn begin(&mut self) -> Result<(), Failed>
        ensures cause { HasCause self.old.counts.faults self.new.counts.faults result }
        ensures failed { IsErr result ↔ IsTrue (next_fails self.old.counts) }
        ensures counts { CountsOnly self.old self.new }
    {
        if self.counts.call() {
            return Err(Failed);
        }
        Ok(())
    }

    // Counts a call of the record, which fails where its number is in the list, or for want of memory.
    fn finish(&mut self, no_memory: bool) -> Result<(), Failed>
        ensures cause { HasCause self.old.counts.faults self.new.counts.faults result }
        ensures failed { is_err result ≡ (no_memory || next_fails self.old.counts) }
        ensures counts { self.new.counts ≡ finished self.old.counts no_memory }
        ensures first { self.new.first ≡ self.old.first }
        ensures calls { self.new.calls ≡ self.old.calls }
    {
        if self.counts.finish(no_memory) {
            return Err(Failed);
        }
        Ok(())
    }

    fn read_names(&mut self, alloc: Global) -> Result<Vec<RelPath>, Memory>
        ensures names { IfOk result (λ paths. paths.items ≡ map (λ e. e.0) (reading self.old).files) }
        ensures same { IsUnchanged self.old self.new }
    {
        self.files.names(alloc)
    }

    fn read_size(&mut self, path: &RelPath) -> Option<u64>
        ensures size { result ≡ option_map length (content (reading self.old).files path.now) }
        ensures same { IsUnchanged self.old self.new }
    {
        self.files.size(path)
    }

    fn read_file(&mut self, alloc: Global, path: &RelPath) -> Result<Option<Bytes>, Memory>
        ensures bytes { IfOk result (λ bytes. bytes ≡ content (reading self.old).files path.now) }
        ensures same { IsUnchanged self.old self.new }
    {
        self.files.read(alloc, path)
    }

    fn note_store(&mut self, path: &RelPath, bytes: &[u8], failed: bool) -> Result<(), Memory>
        requires { HasRoom (reading self.old).files path.now }
        ensures noted { OnOk result (self.new.calls ≡ self.old.calls ++ Call.Store path.now bytes.now failed ∷ []) }
        ensures none { OnErr result (self.new.calls ≡ self.old.calls) }
        ensures first { self.new.first ≡ self.old.first }
        ensures counts { self.new.counts ≡ self.old.counts }
    {
        keep_first(self.alloc, &mut self.first, &mut self.files, &self.areas)?;
        store_noted(
            self.alloc,
            &mut self.files,
            &mut self.calls,
            path,
            bytes,
            failed,
        )
    }

    fn note_erase(&mut self, path: &RelPath, failed: bool) -> Result<(), Memory>
        ensures noted { OnOk result (self.new.calls ≡ self.old.calls ++ Call.Erase path.now failed ∷ []) }
        ensures none { OnErr result (self.new.calls ≡ self.old.calls) }
        ensures first { self.new.first ≡ self.old.first }
        ensures counts { self.new.counts ≡ self.old.counts }
    {
        keep_first(self.alloc, &mut self.first, &mut self.files, &self.areas)?;
        erase_noted(self.alloc, &mut self.files, &mut self.calls, path, failed)
    }

    fn note_patch(&mut self, area: Area, at: u64, bytes: &[u8], failed: bool) -> Result<(), Memory>
        requires { at ≤ length (area_of area (reading self.old)) }
        ensures noted { OnOk result (self.new.calls ≡ self.old.calls ++ Call.Patch area at bytes.now failed ∷ []) }
        ensures none { OnErr result (self.new.calls ≡ self.old.calls) }
        ensures first { self.new.first ≡ self.old.first }
        ensures counts { self.new.counts ≡ self.old.counts }
        ensures bounded { OnOk result (failed ≡ false → at + length bytes.now < 2 ^ 63) }
    {
        keep_first(self.alloc, &mut self.first, &mut self.files, &self.areas)?;
        patch_noted(
            self.alloc,
            &mut self.areas,
            &mut self.calls,
            area,
            at,
            bytes,
            failed,
        )
    }

    fn note_sync(&mut self, failed: bool) -> Result<(), Memory>
        ensures noted { OnOk result (self.new.calls ≡ self.old.calls ++ Call.Sync failed ∷ []) }
        ensures none { OnErr result (self.new.calls ≡ self.old.calls) }
        ensures first { self.new.first ≡ self.old.first }
        ensures counts { self.new.counts ≡ self.old.counts }
    {
        keep_first(self.alloc, &mut self.first, &mut self.files, &self.areas)?;
        sync_noted(&mut self.calls, failed)
    }

    fn len(&self, area: Area) -> usize
        ensures len { result ≡ length (area_of area (reading self.now)) }
        ensures bounded { result < 2 ^ 63 }
    {
        self.areas.len(area)
    }
}

impl Disk for MemDisk {
    ghost use Rattle.std.specs.Prelude.{Some, length};
    ghost use Rattle.wse_disk.specs.MemState.{standing};

    ghost told = { λ d. Some (standing d) };

    ghost moment_of = { λ d. length d.calls };

    ghost faults = { λ d. d.counts.faults };

    ghost reads_an_image = { λ d. d.sound.stays };

    ghost counts_moments = { λ d. d.sound.counted };

    fn moment(&self) -> u64 {
        self.calls.len() as u64
    }

    /// An error leaves `into` as it was.
    fn names(&mut self, alloc: Global, into: &mut Vec<RelPath>) -> Result<(), ReadErr>
        ensures names { OnOk result (into.new.items ≡ map (λ e. e.0) (reading self.old).files) }
        ensures kept { OnErr result (into.new.items ≡ into.old.items) }
        ensures cause { HasReadCause self.old.counts.faults self.new.counts.faults result }
        ensures failed { IsErrOf result ReadErr.Failed ↔ IsTrue (next_fails self.old.counts) }
        ensures counts { CountsOnly self.old self.new }
    {
        self.begin()?;
        *into = self.read_names(alloc)?;
        Ok(())
    }

    fn size(&mut self, path: &RelPath) -> Result<Option<u64>, Failed>
        ensures size { IfOk result (λ size. size ≡ option_map length (content (reading self.old).files path.now)) }
        ensures cause { HasCause self.old.counts.faults self.new.counts.faults result }
        ensures failed { IsErr result ↔ IsTrue (next_fails self.old.counts) }
        ensures counts { CountsOnly self.old self.new }
    {
        self.begin()?;
        Ok(self.read_size(path))
    }

    /// An error leaves `into` as it was.
    fn load(&mut self, alloc: Global, path: &RelPath, into: &mut Vec<u8>) -> Result<bool, ReadErr>
        ensures found { IfOk result (λ found. found ≡ is_some (content (reading self.old).files path.now)) }
        ensures bytes { OnOk result (into.new.items ≡ bytes_or_none (content (reading self.old).files path.now)) }
        ensures kept { OnErr result (into.new.items ≡ into.old.items) }
        ensures cause { HasReadCause self.old.counts.faults self.new.counts.faults result }
        ensures failed { IsErrOf result ReadErr.Failed ↔ IsTrue (next_fails self.old.counts) }
        ensures counts { CountsOnly self.old self.new }
    {
        self.begin()?;
        match self.read_file(alloc, path)? {
            Some(bytes) => {
                *into = bytes.into_vec();
                Ok(true)
            }
            None => {
                into.clear();
                Ok(false)
            }
        }
    }

    fn store(&mut self, path: &RelPath, bytes: &[u8]) -> Result<(), Failed>
        requires { HasRoom (reading self.old).files path.now }
        ensures writes { WriteLeaves (Stores path.now bytes.now) result (standing self.old) (standing self.new) }
        ensures later { length self.old.calls ≤ length self.new.calls }
        ensures cause { HasCause self.old.counts.faults self.new.counts.faults result }
        ensures noted { (no_memory : Bool)
            × Notes (λ failed. Call.Store path.now bytes.now failed) self.old self.new result no_memory }
    {
        let failed = self.counts.fails_next();
        let noted = self.note_store(path, bytes, failed);
        self.finish(noted.is_err())
    }

    fn erase(&mut self, path: &RelPath) -> Result<(), Failed>
        ensures writes { WriteLeaves (Erases path.now) result (standing self.old) (standing self.new) }
        ensures later { length self.old.calls ≤ length self.new.calls }
        ensures cause { HasCause self.old.counts.faults self.new.counts.faults result }
        ensures noted { (no_memory : Bool)
            × Notes (λ failed. Call.Erase path.now failed) self.old self.new result no_memory }
    {
        let failed = self.counts.fails_next();
        let noted = self.note_erase(path, failed);
        self.finish(noted.is_err())
    }

    fn area_len(&mut self, area: Area) -> Result<u64, Failed>
        ensures len { IfOk result (λ count. count ≡ length (area_of area (reading self.old))) }
        ensures bounded { IfOk result (λ count. count < 2 ^ 63) }
        ensures cause { HasCause self.old.counts.faults self.new.counts.faults result }
        ensures failed { IsErr result ↔ IsTrue (next_fails self.old.counts) }
        ensures counts { CountsOnly self.old self.new }
    {
        self.begin()?;
        Ok(self.len(area) as u64)
    }

    /// An error leaves `into` as it was.
    fn area_read(&mut self, area: Area, at: u64, into: &mut [u8]) -> Result<(), Failed>
        requires { at + length into.old ≤ length (area_of area (reading self.old)) }
        ensures bytes { OnOk result (into.new ≡ slice_range (area_of area (reading self.old)) at (at + length into.old)) }
        ensures kept { OnErr result (into.new ≡ into.old) }
        ensures cause { HasCause self.old.counts.faults self.new.counts.faults result }
        ensures failed { IsErr result ↔ IsTrue (next_fails self.old.counts) }
        ensures counts { CountsOnly self.old self.new }
    {
        self.begin()?;
        let at = at as usize;
        into.copy_from_slice(&self.area(area)[at..at + into.len()]);
        Ok(())
    }

    fn area_write(&mut self, area: Area, at: u64, bytes: &[u8]) -> Result<(), Failed>
        requires { at ≤ length (area_of area (reading self.old)) }
        ensures writes { WriteLeaves (Patches area at bytes.now) result (standing self.old) (standing self.new) }
        ensures bounded { OnOk result (at + length bytes.now < 2 ^ 63) }
        ensures later { length self.old.calls ≤ length self.new.calls }
        ensures cause { HasCause self.old.counts.faults self.new.counts.faults result }
        ensures noted { (no_memory : Bool)
            × Notes (λ failed. Call.Patch area at bytes.now failed) self.old self.new result no_memory }
    {
        let failed = self.counts.fails_next();
        let noted = self.note_patch(area, at, bytes, failed);
        self.finish(noted.is_err())
    }

    fn sync(&mut self) -> Result<(), Failed>
        ensures syncs { SyncLeaves result (standing self.old) (standing self.new) }
        ensures later { length self.old.calls ≤ length self.new.calls }
        ensures cause { HasCause self.old.counts.faults self.new.counts.faults result }
        ensures noted { (no_memory : Bool)
            × Notes (λ failed. Call.Sync failed) self.old self.new result no_memory }
    {
        let failed = self.counts.fails_next();
        let noted = self.note_sync(failed);
        self.finish(noted.is_err())
    }
}

impl Place for MemDisk {
    /// What it holds stays as it is, whatever the folders.
    fn place(&mut self, _tree: &str, _store: &str) -> Result<(), Failed>
        ensures cause { HasCause self.old.counts.faults self.new.counts.faults result }
        ensures failed { IsErr result ↔ IsTrue (next_fails self.old.counts) }
        ensures counts { CountsOnly self.old self.new }
    {
        self.begin()
    }
}
