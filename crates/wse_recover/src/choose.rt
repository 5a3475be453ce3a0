// Which journal the switch chooses.
ghost use Rattle.std.specs.Prelude.{◌≡◌, ◌≤◌, IfOk};
ghost use Rattle.wse_path.specs.Causes.{HasCause};
ghost use Rattle.wse_disk.specs.declared.area.Area.TheVariants.{Switch};
ghost use Rattle.wse_disk.specs.Calls.{HasPart};
ghost use Rattle.wse_recover.specs.Choose.{ReadsChosen, ReadsSwitch};

use wse_disk::{Area, Disk, Failed};

// The switch's first byte, in a switch that isn't empty.
fn switch_byte<D: Disk>(disk: &mut D) -> Result<u8, Failed>
    requires some { HasPart (D.told disk.old) Switch 0 1 }
    ensures reads { IfOk result (ReadsSwitch (D.told disk.old)) }
    ensures same { D.told disk.new ≡ D.told disk.old }
    ensures later { D.moment_of disk.old ≤ D.moment_of disk.new }
    ensures cause { HasCause (D.faults disk.old) (D.faults disk.new) result }
{
    let mut byte = [0u8; 1];
    disk.area_read(Area::Switch, 0, &mut byte)?;
    Ok(byte[0])
}

/// The journal that the switch chooses by its first byte: an even one, or none, chooses the first log, an odd one the second.
/// Further bytes mean nothing. This project's own format.
pub(crate) fn chosen<D: Disk>(disk: &mut D) -> Result<Area, Failed>
    ensures chosen { IfOk result (ReadsChosen (D.told disk.old)) }
    ensures same { D.told disk.new ≡ D.told disk.old }
    ensures later { D.moment_of disk.old ≤ D.moment_of disk.new }
    ensures cause { HasCause (D.faults disk.old) (D.faults disk.new) result }
{
    if disk.area_len(Area::Switch)? == 0 {
        return Ok(Area::LogA);
    }
    let byte = switch_byte(disk)?;
    if byte % 2 == 0 {
        Ok(Area::LogA)
    } else {
        Ok(Area::LogB)
    }
}
