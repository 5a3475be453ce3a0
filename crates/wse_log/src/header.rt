// The header of a journal.
ghost use Rattle.std.specs.Prelude.{◌≡◌, ◌≤◌, length, IfOk, IfSome, IfNone};
ghost use Rattle.wse_path.specs.Causes.{HasCause};
ghost use Rattle.wse_disk.specs.Calls.{ReadsLength};
ghost use Rattle.wse_log.specs.Grammar.{header, FailsHeader};
ghost use Rattle.wse_log.specs.Found.{ReadsHeader};

use crate::format::HEADER;
use wse_disk::{Area, Disk, Failed};

// The first place at which the bytes, at most eight, differ from the header or end. None where they are the header.
fn fault_in(bytes: &[u8]) -> Option<u64>
    requires { length bytes.now ≤ 8 }
    ensures none { IfNone result (bytes.now ≡ header) }
    ensures some { IfSome result (FailsHeader bytes.now) }
{
    for (place, byte) in HEADER.iter().enumerate() {
        if bytes.get(place) != Some(byte) {
            return Some(place as u64);
        }
    }
    None
}

/// The first place at which an area of `len` bytes differs from the header or ends. None where it begins with it.
pub fn header_fault<D: Disk>(disk: &mut D, area: Area, len: u64) -> Result<Option<u64>, Failed>
    requires { ReadsLength (D.told disk.old) area len }
    ensures reads { IfOk result (ReadsHeader (D.told disk.old) area) }
    ensures same { D.told disk.new ≡ D.told disk.old }
    ensures later { D.moment_of disk.old ≤ D.moment_of disk.new }
    ensures cause { HasCause (D.faults disk.old) (D.faults disk.new) result }
{
    let mut bytes = [0u8; 8];
    let count = if len < 8 { len as usize } else { 8 };
    let part = &mut bytes[..count];
    disk.area_read(area, 0, part)?;
    Ok(fault_in(part))
}
