// A disk that tells nothing, and calls that serve both kinds.
ghost use Rattle.std.specs.Prelude.{◌≤◌};
ghost use Rattle.wse_path.specs.Causes.{HasCause, Rose};

use crate::script::disk_after;
use std::alloc::Global;
use std::test::Fail;
use wse_disk::{Area, Disk, Failed, Place, ReadErr, write_synced};
use wse_path::RelPath;

// A disk that holds nothing, and fails in each call but `moment` once it is broken.
#[derive(Drop)]
struct SilentDisk {
    is_broken: bool,
    faults: u64,
}

impl SilentDisk {
    fn answer(&mut self) -> Result<(), Failed>
        ensures cause { HasCause self.old.faults self.new.faults result }
    {
        if self.is_broken {
            return Err(self.fault());
        }
        Ok(())
    }

    fn fault(&mut self) -> Failed
        ensures later { self.old.faults ≤ self.new.faults }
        ensures rose { Rose self.old.faults self.new.faults }
    {
        self.faults = self.faults.saturating_add(1);
        Failed
    }
}

impl Disk for SilentDisk {
    ghost moment_of = { λ d. 0 };

    ghost faults = { λ d. d.faults };

    ghost reads_an_image = { λ d. tt };

    ghost counts_moments = { λ d. tt };

    fn moment(&self) -> u64 {
        0
    }

    fn names(&mut self, _alloc: Global, _into: &mut Vec<RelPath>) -> Result<(), ReadErr> {
        self.answer()?;
        Ok(())
    }

    fn size(&mut self, _path: &RelPath) -> Result<Option<u64>, Failed> {
        self.answer()?;
        Ok(None)
    }

    fn load(
        &mut self,
        _alloc: Global,
        _path: &RelPath,
        _into: &mut Vec<u8>,
    ) -> Result<bool, ReadErr> {
        self.answer()?;
        Ok(false)
    }

    fn store(&mut self, _path: &RelPath, _bytes: &[u8]) -> Result<(), Failed> {
        self.answer()
    }

    fn erase(&mut self, _path: &RelPath) -> Result<(), Failed> {
        self.answer()
    }

    fn area_len(&mut self, _area: Area) -> Result<u64, Failed> {
        self.answer()?;
        Ok(0)
    }

    fn area_read(&mut self, _area: Area, _at: u64, _into: &mut [u8]) -> Result<(), Failed> {
        self.answer()
    }

    fn area_write(&mut self, _area: Area, at: u64, bytes: &[u8]) -> Result<(), Failed> {
        self.answer()?;
        if at > 1_000 || bytes.len() > 1_000 {
            return Err(self.fault());
        }
        Ok(())
    }

    fn sync(&mut self) -> Result<(), Failed> {
        self.answer()
    }
}

impl Place for SilentDisk {
    fn place(&mut self, _tree: &str, _store: &str) -> Result<(), Failed> {
        self.answer()
    }
}

fn silent(is_broken: bool) -> bool {
    let mut disk = SilentDisk {
        is_broken,
        faults: 0,
    };
    write_synced(&mut disk, Area::LogB, 0, b"text").is_ok()
}

fn told(alloc: Global) -> Result<bool, Fail> {
    let mut disk = disk_after(alloc, &[], "patch:0:abc")?;
    if disk.area(Area::LogA).len() != 3 {
        return Ok(false);
    }
    let wrote = write_synced(&mut disk, Area::LogA, 3, b"de").is_ok();
    Ok(wrote && disk.area(Area::LogA) == b"abcde".as_slice() && disk.calls().len() == 3)
}

#[test]
fn write_and_sync_serve_both_kinds(rt: HostRuntime) -> Result<(), Fail> {
    assert!(rt; told(rt.alloc())?);
    assert!(rt; silent(false));
    assert!(rt; !silent(true));
    Ok(())
}
