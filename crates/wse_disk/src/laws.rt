// What disks in memory tell, and how what is told goes on.
ghost use Rattle.std.specs.Prelude.{◌≡◌, ◌⊎◌, ◌≤◌, ℕ, Some, length, Option, Result, ⊤};
ghost use Rattle.wse_disk.specs.Reading.{Reading, Write};
ghost use Rattle.wse_disk.specs.Standing.{Standing};
ghost use Rattle.wse_disk.specs.MemState.{standing};
ghost use Rattle.wse_disk.specs.Told.{LeftSince, IsAtRest, IsSynced, ReadsAnImage, moment_told};
ghost use Rattle.wse_disk.specs.Calls.{TellsWrite, TellsSync};

use crate::disk::Disk;
use crate::mem::MemDisk;

/// A disk in memory tells all. It counts the calls of its record as its moments, and the faults that `faults` gives.
pub fn mem_disk_tells(disk: &MemDisk)
    ensures told { ⟦<MemDisk as Disk>⟧.told disk.now ≡ Some (standing disk.now) }
    ensures moment { ⟦<MemDisk as Disk>⟧.moment_of disk.now ≡ length disk.now.calls }
    ensures faults { ⟦<MemDisk as Disk>⟧.faults disk.now ≡ disk.now.counts.faults }
{}

/// After a call each image since an earlier moment was one since that moment before the call, or is one since the call's
/// start; and what was one still is.
pub fn images_go_on()
    ensures write { (w : Write) (old new : Option Standing) (result : Result ⊤ ⊤) → TellsWrite w old new result
        → (moment : ℕ) (image : Reading) → moment ≤ moment_told old → LeftSince new moment image
        → LeftSince old moment image ⊎ LeftSince new (moment_told old) image }
    ensures sync { (old new : Option Standing) (result : Result ⊤ ⊤) → TellsSync old new result
        → (moment : ℕ) (image : Reading) → moment ≤ moment_told old → LeftSince new moment image
        → LeftSince old moment image ⊎ LeftSince new (moment_told old) image }
    ensures kept_by_write { (w : Write) (old new : Option Standing) (result : Result ⊤ ⊤) → TellsWrite w old new result
        → (moment : ℕ) (image : Reading) → moment ≤ moment_told old → LeftSince old moment image
        → LeftSince new moment image }
    ensures kept_by_sync { (old new : Option Standing) (result : Result ⊤ ⊤) → TellsSync old new result
        → (moment : ℕ) (image : Reading) → moment ≤ moment_told old → LeftSince old moment image
        → LeftSince new moment image }
{}

/// Where no write came since a sync that succeeded, nothing is pending.
pub fn synced_rests()
    ensures { (told : Option Standing) → ReadsAnImage told → IsSynced told → IsAtRest told }
{}
