// Two folders as a disk.
ghost use Rattle.std.specs.Prelude.{◌≡◌, ◌+◌, ◌≤◌, ◌^◌, [], length, OnOk};
ghost use Rattle.wse_path.specs.Causes.{Rose};
ghost use Rattle.wse_dir.specs.Faults.{HasRisen, IsReadFault};

use crate::holding::{Hold, hold_folder};
use crate::kinds::is_absent;
use crate::making::make_root;
use crate::{areas, erasing, listing, reading, storing, touched};
use std::alloc::Global;
use std::io;
use std::io::ErrorKind;
use std::rt::Files;
use wse_disk::{Area, Disk, Failed, Place, ReadErr};
use wse_path::RelPath;

/// A folder tree and its store, as two folders of the system. It tells no content. Each error of the system is a fault. The
/// bytes of a file last when the write answers, and its name when a sync does. It holds STORE from the moment that it is there.
#[derive(Drop)]
pub struct DirDisk<R: Files + AllocGlobal + Clone + Drop>
where
    R::File: Hold,
{
    rt: R,
    tree: String,
    store: String,
    touched: Vec<String>,
    held: Option<R::File>,
    flushes: u64,
    faults: u64,
}

impl<R: Files + AllocGlobal + Clone + Drop> DirDisk<R>
where
    R::File: Hold,
{
    /// A disk that isn't placed, without faults so far.
    pub fn new(rt: R) -> DirDisk<R>
        ensures faults { result.faults ≡ 0 }
    {
        let tree = String::new(rt.alloc());
        let store = String::new(rt.alloc());
        let touched = Vec::new(rt.alloc());
        DirDisk {
            rt,
            tree,
            store,
            touched,
            held: None,
            flushes: 0,
            faults: 0,
        }
    }

    /// How many calls failed. It stops at 2^64-1.
    pub fn faults(&self) -> u64
        ensures { result ≡ self.now.faults }
    {
        self.faults
    }

    /// How often a file or a folder was made to last. It stops at 2^64-1.
    pub fn flushes(&self) -> u64
        ensures { result ≡ self.now.flushes }
    {
        self.flushes
    }

    /// One more fault.
    fn fault(&mut self) -> Failed
        ensures { HasRisen self.old.faults self.new.faults }
    {
        self.faults = self.faults.saturating_add(1);
        Failed
    }

    /// Want of memory, or one more fault.
    fn read_fault(&mut self, error: &io::Error) -> ReadErr
        ensures { IsReadFault self.old.faults self.new.faults result }
    {
        if error.kind() == ErrorKind::OutOfMemory {
            ReadErr::Memory
        } else {
            self.fault();
            ReadErr::Failed
        }
    }

    /// Holds STORE where it is there, unless it is held.
    fn hold(&mut self) -> io::Result<()>
        ensures { self.new.faults ≡ self.old.faults }
    {
        if self.held.is_none() && !is_absent(&self.rt, self.store.as_str())? {
            self.held = Some(hold_folder(&self.rt, self.store.as_str())?);
        }
        Ok(())
    }

    /// Makes STORE and holds it.
    fn make_store(&mut self) -> io::Result<()>
        ensures { self.new.faults ≡ self.old.faults }
    {
        if self.held.is_none() {
            make_root(&self.rt, self.store.as_str(), &mut self.touched)?;
        }
        self.hold()
    }

    /// Writes into an area of STORE, which is made and held.
    fn write_area(&mut self, area: Area, at: u64, bytes: &[u8]) -> io::Result<()>
        ensures same { self.new.faults ≡ self.old.faults }
        ensures bounded { OnOk result (at + length bytes.now ≤ 2 ^ 63) }
    {
        self.make_store()?;
        areas::area_write(
            &self.rt,
            self.store.as_str(),
            area,
            at,
            bytes,
            &mut self.touched,
            &mut self.flushes,
        )
    }

    /// Makes the bytes the content of the path.
    fn write_file(&mut self, path: &RelPath, bytes: &[u8]) -> io::Result<()>
        ensures same { self.new.faults ≡ self.old.faults }
        ensures flushed { OnOk result (Rose self.old.flushes self.new.flushes) }
    {
        storing::store(
            &self.rt,
            self.tree.as_str(),
            path,
            bytes,
            &mut self.touched,
            &mut self.flushes,
        )
    }

    /// Makes the names in all folders last in which one came or went.
    fn sync_names(&mut self) -> io::Result<()>
        ensures same { self.new.faults ≡ self.old.faults }
        ensures none_left { OnOk result (self.new.touched.items ≡ []) }
    {
        touched::sync_all(&self.rt, &mut self.touched, &mut self.flushes)
    }
}

impl<R: Files + AllocGlobal + Clone + Drop> Disk for DirDisk<R>
where
    R::File: Hold,
{
    ghost moment_of = { λ _. 0 };

    ghost faults = { λ disk. disk.faults };

    fn moment(&self) -> u64 {
        0
    }

    fn names(&mut self, _alloc: Global, into: &mut Vec<RelPath>) -> Result<(), ReadErr> {
        into.clear();
        match listing::names(&self.rt, self.tree.as_str(), into) {
            Ok(()) => Ok(()),
            Err(e) => Err(self.read_fault(&e)),
        }
    }

    fn size(&mut self, path: &RelPath) -> Result<Option<u64>, Failed> {
        match reading::size(&self.rt, self.tree.as_str(), path) {
            Ok(size) => Ok(size),
            Err(_) => Err(self.fault()),
        }
    }

    fn load(
        &mut self,
        _alloc: Global,
        path: &RelPath,
        into: &mut Vec<u8>,
    ) -> Result<bool, ReadErr> {
        into.clear();
        match reading::load(&self.rt, self.tree.as_str(), path, into) {
            Ok(found) => Ok(found),
            Err(e) => Err(self.read_fault(&e)),
        }
    }

    fn store(&mut self, path: &RelPath, bytes: &[u8]) -> Result<(), Failed> {
        match self.write_file(path, bytes) {
            Ok(()) => Ok(()),
            Err(_) => Err(self.fault()),
        }
    }

    fn erase(&mut self, path: &RelPath) -> Result<(), Failed> {
        match erasing::erase(&self.rt, self.tree.as_str(), path, &mut self.touched) {
            Ok(()) => Ok(()),
            Err(_) => Err(self.fault()),
        }
    }

    fn area_len(&mut self, area: Area) -> Result<u64, Failed> {
        match areas::area_len(&self.rt, self.store.as_str(), area) {
            Ok(count) => Ok(count),
            Err(_) => Err(self.fault()),
        }
    }

    fn area_read(&mut self, area: Area, at: u64, into: &mut [u8]) -> Result<(), Failed> {
        match areas::area_read(&self.rt, self.store.as_str(), area, at, into) {
            Ok(()) => Ok(()),
            Err(_) => Err(self.fault()),
        }
    }

    fn area_write(&mut self, area: Area, at: u64, bytes: &[u8]) -> Result<(), Failed> {
        match self.write_area(area, at, bytes) {
            Ok(()) => Ok(()),
            Err(_) => Err(self.fault()),
        }
    }

    fn sync(&mut self) -> Result<(), Failed> {
        match self.sync_names() {
            Ok(()) => Ok(()),
            Err(_) => Err(self.fault()),
        }
    }

    ghost reads_an_image = { λ _. tt };

    ghost counts_moments = { λ _. tt };
}

/// A copy of the word.
fn copied(alloc: Global, word: &str) -> Result<String, Failed> {
    match String::from_str(alloc, word) {
        Ok(copy) => Ok(copy),
        Err(_) => Err(Failed),
    }
}

impl<R: Files + AllocGlobal + Clone + Drop> Place for DirDisk<R>
where
    R::File: Hold,
{
    fn place(&mut self, tree: &str, store: &str) -> Result<(), Failed> {
        let alloc = self.rt.alloc();
        match (copied(alloc, tree), copied(alloc, store)) {
            (Ok(tree), Ok(store)) => {
                self.tree = tree;
                self.store = store;
                self.held = None;
            }
            _ => return Err(self.fault()),
        }
        match self.hold() {
            Ok(()) => Ok(()),
            Err(_) => Err(self.fault()),
        }
    }
}
