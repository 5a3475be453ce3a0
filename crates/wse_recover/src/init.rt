// Making a store.
ghost use Rattle.std.specs.Prelude.{◌≡◌, ◌≤◌, true, None, OnOk, IfOk, IfErr};
ghost use Rattle.wse_path.specs.Limits.{standard};
ghost use Rattle.wse_apply.specs.Limit.{are_within};
ghost use Rattle.wse_disk.specs.Told.{IsAtRest};
ghost use Rattle.wse_recover.specs.Measure.{TellsHit};
ghost use Rattle.wse_recover.specs.Init.{HasMade, RefusesInit, RefusesMaking, HasMakingCause, disk_of_init, InitGoesOn};

use crate::fault::{InitFault, Unmade};
use crate::first::first_journal;
use std::alloc::Global;
use wse_disk::{Area, Disk, write_synced};
use wse_path::Limits;

// The first byte of the switch that chooses the first log.
const FIRST_LOG: u8 = 0;

// Writes the first log anew and makes that last, and then the switch.
fn make<D: Disk>(alloc: Global, disk: &mut D, limits: &Limits) -> Result<(), Unmade>
    requires within { are_within limits.now standard ≡ true }
    ensures made { OnOk result (HasMade (D.told disk.old) (D.told disk.new)) }
    ensures rests { OnOk result (IsAtRest (D.told disk.new)) }
    ensures fits { OnOk result (TellsHit (D.told disk.old) limits.now None) }
    ensures refused { IfErr result (RefusesMaking (D.told disk.old) (D.told disk.new) limits.now) }
    ensures later { D.moment_of disk.old ≤ D.moment_of disk.new }
    ensures cause { HasMakingCause (D.faults disk.old) (D.faults disk.new) result }
{
    disk.sync()?;
    let journal = first_journal(alloc, disk, limits)?;
    write_synced(disk, Area::LogA, 0, journal.as_slice())?;
    write_synced(disk, Area::Switch, 0, &[FIRST_LOG])?;
    Ok(())
}

/// Makes the store anew over the tree that is there, whatever the areas hold: syncs, measures the tree, writes a journal that
/// begins with a state without records into the first log, syncs, lets the switch choose that log, and syncs. Then nothing is
/// pending, and what is read stands for that state, in which each file has the version 1. This project's own rule.
///
/// A tree that passes a limit is refused, in the order files, bytes of a file, bytes of all files, before anything is
/// written. A stop inside it may leave no store: it is called again.
pub fn init_store<D: Disk>(alloc: Global, disk: D, limits: &Limits) -> Result<D, InitFault<D>>
    requires within { are_within limits.now standard ≡ true }
    ensures made { IfOk result (λ new. HasMade (D.told disk) (D.told new)) }
    ensures rests { IfOk result (λ new. IsAtRest (D.told new)) }
    ensures fits { OnOk result (TellsHit (D.told disk) limits.now None) }
    ensures refused { IfErr result (RefusesInit D.told D.faults limits.now disk) }
    ensures later { D.moment_of disk ≤ D.moment_of (disk_of_init result) }
    ensures kept { InitGoesOn D.faults disk result }
{
    let mut disk = disk;
    match make(alloc, &mut disk, limits) {
        Ok(()) => Ok(disk),
        Err(Unmade::Disk) => Err(InitFault::Disk(disk)),
        Err(Unmade::TooBig(hit)) => Err(InitFault::TooBig {
            disk,
            which: hit.which,
            found: hit.would_be,
        }),
        Err(Unmade::Memory) => Err(InitFault::Memory(disk)),
    }
}
