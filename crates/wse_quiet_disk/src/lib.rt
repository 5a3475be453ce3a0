// A disk for tests, which tells nothing of what it holds.
#![tactic(auto)]

ghost use Rattle.std.specs.Prelude.{◌≡◌, ◌≤◌};
ghost use Rattle.wse_path.specs.Causes.{HasCause, Rose};
ghost use Rattle.wse_disk.specs.Causes.{HasReadCause};

use std::alloc::Global;
use wse_disk::{Area, Disk, Failed, MemDisk, Place, ReadErr};
use wse_path::RelPath;

/// It makes each call over a disk in memory, and fails where that one asks for a condition that isn't met. As it tells nothing,
/// conditions of calls over it ask nothing, so a test may call with any bytes.
#[derive(Drop)]
pub struct QuietDisk {
    /// What is read and written.
    pub disk: MemDisk,
    /// How often it was called, but for its moment.
    pub calls: u64,
    /// How often it failed.
    pub faults: u64,
}

impl QuietDisk {
    /// A disk over that one, which was never called.
    pub fn new(disk: MemDisk) -> QuietDisk
        ensures same { result.disk ≡ disk }
        ensures uncalled { result.calls ≡ 0 }
        ensures unfailed { result.faults ≡ 0 }
    {
        QuietDisk {
            disk,
            calls: 0,
            faults: 0,
        }
    }

    fn fault(&mut self) -> Failed
        ensures later { self.old.faults ≤ self.new.faults }
        ensures rose { Rose self.old.faults self.new.faults }
    {
        self.faults = self.faults.saturating_add(1);
        Failed
    }

    // Counts the call, and the fault if it is one.
    fn answer<T: Drop>(&mut self, answer: Result<T, Failed>) -> Result<T, Failed>
        ensures same { result ≡ answer }
        ensures cause { HasCause self.old.faults self.new.faults result }
    {
        self.calls = self.calls.saturating_add(1);
        match answer {
            Ok(answer) => Ok(answer),
            Err(_) => Err(self.fault()),
        }
    }

    fn answer_read<T: Drop>(&mut self, answer: Result<T, ReadErr>) -> Result<T, ReadErr>
        ensures cause { HasReadCause self.old.faults self.new.faults result }
    {
        self.calls = self.calls.saturating_add(1);
        match answer {
            Ok(answer) => Ok(answer),
            Err(ReadErr::Failed) => Err(ReadErr::from(self.fault())),
            Err(ReadErr::Memory) => Err(ReadErr::Memory),
        }
    }
}

impl Disk for QuietDisk {
    ghost moment_of = { λ _. 0 };

    ghost faults = { λ d. d.faults };

    ghost reads_an_image = { λ d. tt };

    ghost counts_moments = { λ d. tt };

    fn moment(&self) -> u64 {
        0
    }

    fn names(&mut self, alloc: Global, into: &mut Vec<RelPath>) -> Result<(), ReadErr> {
        let answer = self.disk.names(alloc, into);
        self.answer_read(answer)
    }

    fn size(&mut self, path: &RelPath) -> Result<Option<u64>, Failed> {
        let answer = self.disk.size(path);
        self.answer(answer)
    }

    fn load(&mut self, alloc: Global, path: &RelPath, into: &mut Vec<u8>) -> Result<bool, ReadErr> {
        let answer = self.disk.load(alloc, path, into);
        self.answer_read(answer)
    }

    fn store(&mut self, path: &RelPath, bytes: &[u8]) -> Result<(), Failed> {
        if !self.disk.has_room(path) {
            return self.answer(Err(Failed));
        }
        let answer = self.disk.store(path, bytes);
        self.answer(answer)
    }

    fn erase(&mut self, path: &RelPath) -> Result<(), Failed> {
        let answer = self.disk.erase(path);
        self.answer(answer)
    }

    fn area_len(&mut self, area: Area) -> Result<u64, Failed> {
        let answer = self.disk.area_len(area);
        self.answer(answer)
    }

    fn area_read(&mut self, area: Area, at: u64, into: &mut [u8]) -> Result<(), Failed> {
        let len = self.disk.area(area).len() as u64;
        if at > len || into.len() as u64 > len - at {
            return self.answer(Err(Failed));
        }
        let answer = self.disk.area_read(area, at, into);
        self.answer(answer)
    }

    fn area_write(&mut self, area: Area, at: u64, bytes: &[u8]) -> Result<(), Failed> {
        if at > self.disk.area(area).len() as u64 {
            return self.answer(Err(Failed));
        }
        let answer = self.disk.area_write(area, at, bytes);
        self.answer(answer)
    }

    fn sync(&mut self) -> Result<(), Failed> {
        let answer = self.disk.sync();
        self.answer(answer)
    }
}

impl Place for QuietDisk {
    fn place(&mut self, tree: &str, store: &str) -> Result<(), Failed> {
        let answer = self.disk.place(tree, store);
        self.answer(answer)
    }
}
