// Reads of a few bytes of an area.
ghost use Rattle.std.specs.Prelude.{◌≡◌, ◌≤◌, ◌+◌, length, IfOk};
ghost use Rattle.std.specs.Int.{w32, to_be_bytes};
ghost use Rattle.wse_path.specs.Causes.{HasCause};
ghost use Rattle.wse_disk.specs.Causes.{HasReadCause};
ghost use Rattle.wse_disk.specs.Calls.{HasPart, ReadsPart};
ghost use Rattle.wse_log.specs.Reads.{ReadsByte, ReadsNumber};

use std::alloc::Global;
use wse_disk::{Area, Disk, Failed, ReadErr};

/// The byte at that place.
pub fn byte_at<D: Disk>(disk: &mut D, area: Area, at: u64) -> Result<u8, Failed>
    requires { HasPart (D.told disk.old) area at 1 }
    ensures reads { IfOk result (ReadsByte (D.told disk.old) area at) }
    ensures same { D.told disk.new ≡ D.told disk.old }
    ensures later { D.moment_of disk.old ≤ D.moment_of disk.new }
    ensures cause { HasCause (D.faults disk.old) (D.faults disk.new) result }
{
    let mut byte = [0u8; 1];
    disk.area_read(area, at, &mut byte)?;
    Ok(byte[0])
}

// The number that the bytes are.
fn number_of(bytes: &[u8; 4]) -> u32
    ensures { to_be_bytes w32 result ≡ bytes.now }
{
    u32::from_be_bytes(*bytes)
}

/// The number in the four bytes from that place on.
pub fn number_at<D: Disk>(disk: &mut D, area: Area, at: u64) -> Result<u32, Failed>
    requires { HasPart (D.told disk.old) area at 4 }
    ensures reads { IfOk result (ReadsNumber (D.told disk.old) area at) }
    ensures same { D.told disk.new ≡ D.told disk.old }
    ensures later { D.moment_of disk.old ≤ D.moment_of disk.new }
    ensures cause { HasCause (D.faults disk.old) (D.faults disk.new) result }
{
    let mut bytes = [0u8; 4];
    disk.area_read(area, at, &mut bytes)?;
    Ok(number_of(&bytes))
}

/// So many bytes from that place on.
pub fn bytes_at<D: Disk>(
    alloc: Global,
    disk: &mut D,
    area: Area,
    at: u64,
    count: u32,
) -> Result<Vec<u8>, ReadErr>
    requires { HasPart (D.told disk.old) area at count }
    ensures reads { IfOk result (λ bytes. ReadsPart (D.told disk.old) area at count bytes.items) }
    ensures count { IfOk result (λ bytes. length bytes.items ≡ count) }
    ensures same { D.told disk.new ≡ D.told disk.old }
    ensures later { D.moment_of disk.old ≤ D.moment_of disk.new }
    ensures cause { HasReadCause (D.faults disk.old) (D.faults disk.new) result }
{
    let mut bytes = vec![in alloc; 0u8; count as usize]?;
    disk.area_read(area, at, &mut bytes)?;
    Ok(bytes)
}
