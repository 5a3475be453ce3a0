// Gates, and the marks in front of them.
ghost use Rattle.std.specs.Prelude.{◌≡◌, ◌≤◌, ◌<◌, ◌-◌, OnOk};
ghost use Rattle.wse_disk.specs.Calls.{ReadsLength};
ghost use Rattle.wse_log.specs.Reads.{HasScanCause};
ghost use Rattle.wse_log.specs.Found.{ReadsGate, ReadsMark};

use crate::format::{OPEN_GATE, SETTLED};
use crate::reads::byte_at;
use crate::step::ScanFault;
use wse_disk::{Area, Disk};

/// Whether the gate at that place is open, in an area of `len` bytes. A gate that is missing is `NotALog`.
pub fn is_open<D: Disk>(disk: &mut D, area: Area, len: u64, at: u64) -> Result<bool, ScanFault>
    requires { ReadsLength (D.told disk.old) area len }
    ensures reads { ReadsGate (D.told disk.old) area at result }
    ensures within { OnOk result (at < len) }
    ensures same { D.told disk.new ≡ D.told disk.old }
    ensures later { D.moment_of disk.old ≤ D.moment_of disk.new }
    ensures cause { HasScanCause (D.faults disk.old) (D.faults disk.new) result }
{
    if len <= at {
        return Err(ScanFault::NotALog { at });
    }
    let gate = byte_at(disk, area, at)?;
    Ok(gate == OPEN_GATE)
}

/// Whether the record in front of the gate at that place is settled. `NotALog` at its mark where it isn't.
pub fn check_settled<D: Disk>(
    disk: &mut D,
    area: Area,
    len: u64,
    gate: u64,
) -> Result<(), ScanFault>
    requires length { ReadsLength (D.told disk.old) area len }
    requires later { 0 < gate }
    requires within { gate < len }
    ensures reads { ReadsMark (D.told disk.old) area (gate - 1) result }
    ensures same { D.told disk.new ≡ D.told disk.old }
    ensures later { D.moment_of disk.old ≤ D.moment_of disk.new }
    ensures cause { HasScanCause (D.faults disk.old) (D.faults disk.new) result }
{
    let mark = byte_at(disk, area, gate - 1)?;
    if mark != SETTLED {
        return Err(ScanFault::NotALog { at: gate - 1 });
    }
    Ok(())
}
