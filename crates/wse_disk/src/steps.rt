// Steps of several calls, which leave nothing pending.
ghost use Rattle.std.specs.Prelude.{◌≡◌, ◌+◌, ◌≤◌, ◌^◌, length, OnOk};
ghost use Rattle.wse_path.specs.Causes.{HasCause};
ghost use Rattle.wse_disk.specs.Reading.Write.{Patches};
ghost use Rattle.wse_disk.specs.Image.{IsTorn};
ghost use Rattle.wse_disk.specs.Told.{IsAtRest, IsSynced, reading_of};
ghost use Rattle.wse_disk.specs.Calls.{IsPatchable, HasApplied};
ghost use Rattle.wse_disk.specs.LeavesOnly.{LeavesOnly};

use crate::area::Area;
use crate::disk::{Disk, Failed};

/// Writes into an area, and syncs. Where nothing was pending before, a crash during the call leaves what was read then, but
/// for the places that are written and what is behind the area's end.
pub fn write_synced<D: Disk>(disk: &mut D, area: Area, at: u64, bytes: &[u8]) -> Result<(), Failed>
    requires { IsPatchable (D.told disk.old) area at bytes.now }
    ensures written { OnOk result (HasApplied (Patches area at bytes.now) (D.told disk.old) (D.told disk.new)) }
    ensures synced { OnOk result (IsSynced (D.told disk.new)) }
    ensures rests { OnOk result (IsAtRest (D.told disk.new)) }
    ensures during { IsAtRest (D.told disk.old)
        → LeavesOnly (D.told disk.old) (D.told disk.new) (IsTorn area at (length bytes.now) (reading_of (D.told disk.old))) }
    ensures bounded { OnOk result (at + length bytes.now ≤ 2 ^ 63) }
    ensures later { D.moment_of disk.old ≤ D.moment_of disk.new }
    ensures cause { HasCause (D.faults disk.old) (D.faults disk.new) result }
{
    disk.area_write(area, at, bytes)?;
    disk.sync()
}
