// A record behind an open gate.
ghost use Rattle.std.specs.Prelude.{◌≡◌, ◌≤◌, ◌<◌, ◌+◌, ◌^◌, length, IfOk};
ghost use Rattle.wse_path.specs.Causes.{HasCause};
ghost use Rattle.wse_disk.specs.Calls.{ReadsLength, HasPart};
ghost use Rattle.wse_log.specs.Reads.{ReadsNumber, HasScanCause};
ghost use Rattle.wse_log.specs.Found.{ReadsRecord};

use crate::format::SETTLED;
use crate::reads::{byte_at, bytes_at, number_at};
use crate::step::ScanFault;
use std::alloc::Global;
use wse_disk::{Area, Disk, Failed};
use wse_path::Bytes;

/// A body, and the byte behind it.
#[derive(Drop)]
pub struct Found {
    pub body: Bytes,
    pub mark: u8,
}

impl Found {
    ghost use Rattle.std.specs.Prelude.{◌==◌};
    ghost use Rattle.wse_log.specs.Grammar.{settled_byte};

    /// Whether the record is settled.
    pub fn is_settled(&self) -> bool
        ensures { result ≡ (self.now.mark == settled_byte) }
    {
        self.mark == SETTLED
    }
}

// The length of the body behind the gate.
fn body_len<D: Disk>(disk: &mut D, area: Area, gate: u64) -> Result<u32, Failed>
    requires length { HasPart (D.told disk.old) area (gate + 1) 4 }
    requires small { gate < 2 ^ 63 }
    ensures reads { IfOk result (ReadsNumber (D.told disk.old) area (gate + 1)) }
    ensures same { D.told disk.new ≡ D.told disk.old }
    ensures later { D.moment_of disk.old ≤ D.moment_of disk.new }
    ensures cause { HasCause (D.faults disk.old) (D.faults disk.new) result }
{
    number_at(disk, area, gate + 1)
}

/// Reads what stands behind the open gate at `gate`, in an area of `len` bytes. Where that isn't whole the answer is
/// `NotALog` at the gate, before memory is taken.
pub fn record_at<D: Disk>(
    alloc: Global,
    disk: &mut D,
    area: Area,
    len: u64,
    gate: u64,
) -> Result<Found, ScanFault>
    requires length { ReadsLength (D.told disk.old) area len }
    requires within { gate < len }
    requires small { len < 2 ^ 63 }
    ensures reads { ReadsRecord (D.told disk.old) area gate result }
    ensures short { IfOk result (λ found. length found.body < 2 ^ 32) }
    ensures room { IfOk result (λ found. gate + 6 + length found.body ≤ len) }
    ensures same { D.told disk.new ≡ D.told disk.old }
    ensures later { D.moment_of disk.old ≤ D.moment_of disk.new }
    ensures cause { HasScanCause (D.faults disk.old) (D.faults disk.new) result }
{
    let room = len - gate - 1;
    if room < 4 {
        return Err(ScanFault::NotALog { at: gate });
    }
    let count = body_len(disk, area, gate)?;
    if room - 4 <= u64::from(count) {
        return Err(ScanFault::NotALog { at: gate });
    }
    let body = bytes_at(alloc, disk, area, gate + 5, count)?;
    let mark = byte_at(disk, area, gate + 5 + u64::from(count))?;
    Ok(Found {
        body: Bytes::new(body),
        mark,
    })
}
