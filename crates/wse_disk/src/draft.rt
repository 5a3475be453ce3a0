// What a disk holds, while calls are done again on it. Its files need not be a tree.
ghost use Rattle.std.specs.Prelude.{◌≡◌, ◌≤◌, ◌<◌, ◌+◌, [], length, take, replicate, IfOk, OnOk, MatchOption};
ghost use Rattle.wse_path.specs.Tree.{Entries, IsTree};
ghost use Rattle.wse_disk.specs.Reading.Write.{Stores, Erases, Patches};
ghost use Rattle.wse_disk.specs.Replay.{held, drafted, laid};
ghost use Rattle.wse_disk.specs.Chosen.{left_from};
ghost use Rattle.wse_disk.specs.Runs.{write_of, writes_of, kept_call, blank_call, redone, redone_all, left_one};

use crate::area::Area;
use crate::areas::Areas;
use crate::call::Call;
use crate::fate::{Fate, fate_at};
use std::alloc::Global;
use wse_path::{Bytes, Duplicate, Memory, PathMap, RelPath, Tree, copy_bytes};

/// Files and areas.
#[derive(Drop)]
pub struct Draft {
    pub files: PathMap<Bytes>,
    pub areas: Areas,
}

impl Draft {
    /// A draft of these files and areas.
    pub fn of(alloc: Global, tree: &Tree, areas: &Areas) -> Result<Draft, Memory>
        ensures { IfOk result (λ draft. drafted draft ≡ held tree.now.files areas.now) }
    {
        let files = files_of(alloc, tree)?;
        let areas = areas.duplicate(alloc)?;
        Ok(Draft { files, areas })
    }

    /// A draft of the same.
    pub fn duplicate(&self, alloc: Global) -> Result<Draft, Memory>
        ensures { IfOk result (λ draft. drafted draft ≡ drafted self.now) }
    {
        let files = self.files.duplicate(alloc)?;
        let areas = self.areas.duplicate(alloc)?;
        Ok(Draft { files, areas })
    }

    fn store(&mut self, alloc: Global, path: &RelPath, bytes: &Bytes) -> Result<(), Memory>
        ensures { OnOk result (drafted self.new ≡ laid (Stores path.now bytes.now) (drafted self.old)) }
    {
        self.files
            .put(path.duplicate(alloc)?, bytes.duplicate(alloc)?)
    }

    fn erase(&mut self, path: &RelPath)
        ensures { drafted self.new ≡ laid (Erases path.now) (drafted self.old) }
    {
        let _ = self.files.remove(path);
    }

    fn patch(&mut self, area: Area, at: usize, bytes: &[u8]) -> Result<(), Memory>
        ensures { OnOk result (drafted self.new ≡ laid (Patches area at bytes.now) (drafted self.old)) }
    {
        self.areas.patch(area, at, bytes)
    }

    // Does what the call asks for, whether or not it failed.
    fn keep(&mut self, alloc: Global, call: &Call) -> Result<(), Memory>
        ensures { OnOk result (drafted self.new ≡ kept_call call.now (drafted self.old)) }
    {
        match call {
            Call::Store {
                path,
                bytes,
                failed: _,
            } => self.store(alloc, path, bytes),
            Call::Erase { path, failed: _ } => {
                self.erase(path);
                Ok(())
            }
            Call::Patch {
                area,
                at,
                bytes,
                failed: _,
            } => self.patch(*area, *at as usize, bytes.as_slice()),
            Call::Sync { failed: _ } => Ok(()),
        }
    }

    // Erases the path of the call, or writes as many zeros.
    fn blank(&mut self, alloc: Global, call: &Call) -> Result<(), Memory>
        ensures { OnOk result (drafted self.new ≡ blank_call call.now (drafted self.old)) }
    {
        match call {
            Call::Store {
                path,
                bytes: _,
                failed: _,
            } => {
                self.erase(path);
                Ok(())
            }
            Call::Erase { path, failed: _ } => {
                self.erase(path);
                Ok(())
            }
            Call::Patch {
                area,
                at,
                bytes,
                failed: _,
            } => self.blank_area(alloc, *area, *at as usize, bytes.len()),
            Call::Sync { failed: _ } => Ok(()),
        }
    }

    fn blank_area(
        &mut self,
        alloc: Global,
        area: Area,
        at: usize,
        count: usize,
    ) -> Result<(), Memory>
        ensures { OnOk result (drafted self.new ≡ laid (Patches area at (replicate count 0)) (drafted self.old)) }
    {
        let mut zeros = Vec::new(alloc);
        zeros.resize(count, 0u8)?;
        self.patch(area, at, &zeros)
    }

    // Does to the write of the call what becomes of it.
    fn leave(&mut self, alloc: Global, call: &Call, fate: Fate) -> Result<(), Memory>
        ensures { OnOk result (drafted self.new ≡ left_one fate (write_of call.now) (drafted self.old)) }
    {
        match fate {
            Fate::Lost => Ok(()),
            Fate::Kept => self.keep(alloc, call),
            Fate::Blank => self.blank(alloc, call),
        }
    }

    // Does a call again, unless it failed.
    fn redo(&mut self, alloc: Global, call: &Call) -> Result<(), Memory>
        ensures { OnOk result (drafted self.new ≡ redone call.now (drafted self.old)) }
    {
        if call.has_failed() {
            return Ok(());
        }
        self.keep(alloc, call)
    }

    /// Does to each write of the calls what the choice makes of it.
    pub fn leave_all(&mut self, alloc: Global, calls: &[Call], choice: u64) -> Result<(), Memory>
        ensures { OnOk result (drafted self.new ≡ left_from choice 0 (drafted self.old) (writes_of calls.now)) }
    {
        let mut index = 0;
        for call in calls {
            self.leave(alloc, call, fate_at(choice, index))?;
            index += call.writes();
        }
        Ok(())
    }

    /// Does the calls again that didn't fail.
    pub fn redo_all(&mut self, alloc: Global, calls: &[Call]) -> Result<(), Memory>
        ensures { OnOk result (drafted self.new ≡ redone_all (drafted self.old) calls.now) }
    {
        for call in calls {
            self.redo(alloc, call)?;
        }
        Ok(())
    }
}

// The files of a tree.
fn files_of(alloc: Global, tree: &Tree) -> Result<PathMap<Bytes>, Memory>
    ensures { IfOk result (λ files. files.entries ≡ tree.now.files) }
{
    let mut files = PathMap::new(alloc);
    for index in 0..tree.count() {
        add_file(alloc, &mut files, tree, index)?;
    }
    Ok(files)
}

// Adds the file of the tree with that index.
fn add_file(
    alloc: Global,
    files: &mut PathMap<Bytes>,
    tree: &Tree,
    index: usize,
) -> Result<(), Memory>
    requires within { index < length tree.now.files }
    requires before { files.old.entries ≡ take index tree.now.files }
    ensures { OnOk result (files.new.entries ≡ take (index + 1) tree.now.files) }
{
    let (path, bytes) = tree.file_at(index);
    files.put(path.duplicate(alloc)?, copy_bytes(alloc, bytes)?)
}

/// The tree of these files, if they are one.
pub fn tree_of(alloc: Global, files: &PathMap<Bytes>) -> Result<Option<Tree>, Memory>
    ensures { IfOk result (λ tree. MatchOption tree (IsTree files.now.entries → ⊥) (λ tree. tree.files ≡ files.now.entries)) }
{
    let mut tree = Tree::new(alloc);
    for entry in files.as_slice() {
        if !tree.fits(&entry.0) {
            return Ok(None);
        }
        tree.put(entry.0.duplicate(alloc)?, entry.1.duplicate(alloc)?)?;
    }
    Ok(Some(tree))
}
