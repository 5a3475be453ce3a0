// Disks made of disks.
use crate::stage::disk_over;
use std::alloc::Global;
use wse_disk::{Area, Disk};
use wse_path::{Bytes, Memory, RelPath};
use wse_quiet_disk::QuietDisk;

// How many calls lay the areas of a disk anew.
const LAYING: u64 = 4;

fn later(alloc: Global, numbers: &[u64]) -> Result<Vec<u64>, Memory> {
    let mut all = Vec::new(alloc);
    for number in numbers {
        all.push(number.saturating_add(LAYING))?;
    }
    Ok(all)
}

/// A disk that holds the same, on which nothing is pending, and whose calls with these numbers fail, counted from 1.
pub fn failing(alloc: Global, old: QuietDisk, numbers: &[u64]) -> Result<QuietDisk, Memory> {
    let fails = later(alloc, numbers)?;
    let switch = old.disk.area(Area::Switch).to_vec(alloc)?;
    let log_a = old.disk.area(Area::LogA).to_vec(alloc)?;
    let log_b = old.disk.area(Area::LogB).to_vec(alloc)?;
    let mut disk = disk_over(alloc, old.disk.into_tree(), fails);
    let _ = disk.area_write(Area::Switch, 0, &switch);
    let _ = disk.area_write(Area::LogA, 0, &log_a);
    let _ = disk.area_write(Area::LogB, 0, &log_b);
    let _ = disk.sync();
    disk.calls = 0;
    Ok(disk)
}

/// What a crash leaves of the disk at the moment, by the choice; none where it wasn't there yet.
pub fn crashed(disk: &QuietDisk, moment: u64, choice: u64) -> Result<Option<QuietDisk>, Memory> {
    if moment > disk.disk.calls().len() as u64 {
        return Ok(None);
    }
    let image = disk.disk.image_at(moment, choice)?;
    Ok(Some(QuietDisk::new(image)))
}

/// Stores the content at the path, or erases it, and syncs.
pub fn put(disk: &mut QuietDisk, path: &RelPath, content: &Option<Bytes>) -> bool {
    let done = match content {
        Some(bytes) => disk.store(path, bytes.as_slice()),
        None => disk.erase(path),
    };
    done.is_ok() && disk.sync().is_ok()
}

/// Writes into the area, and syncs.
pub fn patch(disk: &mut QuietDisk, area: Area, at: u64, bytes: &[u8]) -> bool {
    disk.area_write(area, at, bytes).is_ok() && disk.sync().is_ok()
}
