// Files with changes over them.
ghost use Rattle.std.specs.Prelude.{◌≡◌, IfOk, OnOk, OnErr};
ghost use Rattle.wse_path.specs.Tree.{put_file, remove_file, HasRoom, IsTree};
ghost use Rattle.wse_path.specs.Changes.{changes_between};
ghost use Rattle.wse_overlay.specs.Overlay.{shown};

use crate::contents::Contents;
use crate::difference::{changes_to, new_contents};
use crate::lookups::{
    Gone, Put, kept_above, kept_bytes, kept_under, paths_shown, put_above, put_under,
};
use std::alloc::Global;
use std::collections::{BTreeMap, BTreeSet};
use std::marker::Model;
use wse_path::{Bytes, Changes, Duplicate, Files, Memory, RelPath};

/// Files with changes over them: files that were put, and files that were taken away. The files below, a tree's or those
/// that changes show already, stay as they are. A change costs about a logarithm. Contracts see the files below, and
/// those that are shown, which are a tree.
pub struct Overlay<'a, C: Contents> {
    below: &'a C,
    // What was put counts before what is gone.
    put: Put,
    gone: Gone,
    ghost is_tree: { IsTree (shown gone.keys put.entries (C.files below.now)) },
}

// Written out, since what stands below need not be let go.
impl<'a, C: Contents> Drop for Overlay<'a, C> {
    fn drop(self) {
        let Overlay {
            below: _,
            put,
            gone,
        } = self;
        drop(put);
        drop(gone);
    }
}

impl<'a, C: Contents> Model for Overlay<'a, C> {
    ghost use Rattle.wse_overlay.specs.Overlay.{OverlayState, shown};

    ghost Value = { OverlayState };

    ghost view = { λ a. record {
      base = C.files a.below.now;
      files = shown a.gone.keys a.put.entries (C.files a.below.now);
      is_tree = a.is_tree;
    } };
}

impl<'a, C: Contents> Overlay<'a, C> {
    /// The files without changes. It takes no memory until there is one.
    pub fn new(alloc: Global, below: &'a C) -> Overlay<'a, C>
        ensures base { result.base ≡ C.files below.now }
        ensures files { result.files ≡ C.files below.now }
    {
        Overlay {
            below,
            put: BTreeMap::new(alloc),
            gone: BTreeSet::new(alloc),
        }
    }

    /// Puts the bytes at the path, in place of what is there. After Memory all is as it was.
    pub fn put(&mut self, path: RelPath, bytes: Bytes) -> Result<(), Memory>
        requires { HasRoom self.old.files path }
        ensures base { self.new.base ≡ self.old.base }
        ensures files { OnOk result (self.new.files ≡ put_file self.old.files path bytes) }
        ensures memory { OnErr result (self.new.files ≡ self.old.files) }
    {
        self.put.insert(path, bytes)?;
        Ok(())
    }

    /// Takes the path away, if it is there. After Memory all is as it was.
    pub fn remove(&mut self, alloc: Global, path: &RelPath) -> Result<(), Memory>
        ensures base { self.new.base ≡ self.old.base }
        ensures files { OnOk result (self.new.files ≡ remove_file self.old.files path.now) }
        ensures memory { OnErr result (self.new.files ≡ self.old.files) }
    {
        self.gone.insert(path.duplicate(alloc)?)?;
        let _ = self.put.remove(path);
        Ok(())
    }

    /// The changes from the files below to what is shown, in path order: each path whose content differs, with its old and
    /// its new content.
    pub fn into_changes(self, alloc: Global) -> Result<Changes, Memory>
        ensures { IfOk result (λ changes. changes ≡ changes_between self.entry.base self.entry.files) }
    {
        let Overlay { below, put, gone } = self;
        changes_to(alloc, below, new_contents(alloc, gone, put)?)
    }
}

impl<'a, C: Contents> Contents for Overlay<'a, C> {
    ghost files = { λ o. o.files };

    ghost is_tree = { λ o. o.is_tree };

    fn get(&self, path: &RelPath) -> Option<&[u8]> {
        match self.put.get(path) {
            Some(bytes) => Some(bytes.as_slice()),
            None => kept_bytes(self.below, &self.gone, path),
        }
    }

    fn file_above(&self, path: &RelPath) -> Option<&RelPath> {
        match put_above(&self.put, path) {
            Some(file) => Some(file),
            None => kept_above(self.below, &self.gone, path),
        }
    }

    fn is_folder(&self, alloc: Global, path: &RelPath) -> Result<bool, Memory> {
        if put_under(&self.put, path) {
            return Ok(true);
        }
        kept_under(alloc, self.below, &self.gone, path)
    }

    fn under(&self, alloc: Global, path: &RelPath) -> Result<Files, Memory> {
        paths_shown(alloc, self.below, &self.gone, &self.put, path)
    }
}
