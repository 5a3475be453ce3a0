// A disk of one area.
ghost use Rattle.std.specs.Prelude.{◌≤◌};
ghost use Rattle.wse_path.specs.Causes.{HasCause, Rose};

use std::alloc::Global;
use wse_disk::{Area, Disk, Failed, ReadErr};
use wse_path::RelPath;

/// A disk without files, whose areas all have the same bytes. It tells nothing. It counts its reads and fails at the one
/// with a given number, counted from 1.
#[derive(Drop)]
pub struct OneArea {
    bytes: Vec<u8>,
    fails_at: u64,
    reads: u64,
    faults: u64,
}

impl OneArea {
    pub fn new(bytes: Vec<u8>, fails_at: u64) -> OneArea {
        OneArea {
            bytes,
            fails_at,
            reads: 0,
            faults: 0,
        }
    }

    /// How often the area was read or asked for its length.
    pub fn reads(&self) -> u64 {
        self.reads
    }

    fn count(&mut self) -> Result<(), Failed>
        ensures { HasCause self.old.faults self.new.faults result }
    {
        self.reads = self.reads.saturating_add(1);
        if self.reads == self.fails_at {
            return Err(self.fault());
        }
        Ok(())
    }

    fn fault(&mut self) -> Failed
        ensures later { self.old.faults ≤ self.new.faults }
        ensures rose { Rose self.old.faults self.new.faults }
    {
        self.faults = self.faults.saturating_add(1);
        Failed
    }
}

impl Disk for OneArea {
    ghost moment_of = { λ _. 0 };

    ghost faults = { λ d. d.faults };

    ghost reads_an_image = { λ d. tt };

    ghost counts_moments = { λ d. tt };

    fn moment(&self) -> u64 {
        0
    }

    fn names(&mut self, _alloc: Global, into: &mut Vec<RelPath>) -> Result<(), ReadErr> {
        into.clear();
        Ok(())
    }

    fn size(&mut self, _path: &RelPath) -> Result<Option<u64>, Failed> {
        Ok(None)
    }

    fn load(
        &mut self,
        _alloc: Global,
        _path: &RelPath,
        _into: &mut Vec<u8>,
    ) -> Result<bool, ReadErr> {
        Ok(false)
    }

    fn store(&mut self, _path: &RelPath, _bytes: &[u8]) -> Result<(), Failed> {
        Err(self.fault())
    }

    fn erase(&mut self, _path: &RelPath) -> Result<(), Failed> {
        Err(self.fault())
    }

    fn area_len(&mut self, _area: Area) -> Result<u64, Failed> {
        self.count()?;
        Ok(self.bytes.len() as u64)
    }

    /// A read past the end fails.
    fn area_read(&mut self, _area: Area, at: u64, into: &mut [u8]) -> Result<(), Failed> {
        self.count()?;
        let part = self
            .bytes
            .get(at as usize..)
            .and_then(|rest| rest.get(..into.len()));
        match part {
            Some(part) => {
                into.copy_from_slice(part);
                Ok(())
            }
            None => Err(self.fault()),
        }
    }

    fn area_write(&mut self, _area: Area, _at: u64, _bytes: &[u8]) -> Result<(), Failed> {
        Err(self.fault())
    }

    fn sync(&mut self) -> Result<(), Failed> {
        Ok(())
    }
}
