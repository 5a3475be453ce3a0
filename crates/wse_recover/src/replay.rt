// Reading a journal behind its first record.
ghost use Rattle.std.specs.Prelude.{◌≡◌, ◌≤◌, ◌<◌, ◌^◌, OnOk, IfOk, IsErrOf};
ghost use Rattle.wse_path.specs.Causes.{Rose};
ghost use Rattle.wse_log.specs.Scan.{IsAtPiece};
ghost use Rattle.wse_recover.specs.declared.fault.ReplayFault.TheVariants.{Disk};
ghost use Rattle.wse_recover.specs.Held.{held, AreNumbersBounded};
ghost use Rattle.wse_recover.specs.Loop.{GivesEnd};
ghost use Rattle.wse_recover.specs.Unsettled.{MayBeFinished};

use crate::fault::{ReplayFault, Round};
use crate::round::round;
use crate::unsettled::Unsettled;
use std::alloc::Global;
use wse_disk::{Area, Disk};
use wse_path::Versions;
use wse_stacks::Stacks;

/// Where the journal ends, and its last record where that isn't settled.
#[derive(Drop)]
pub struct Replay {
    pub gate: u64,
    pub last: Option<Unsettled>,
}

/// Reads the journal's records behind the first, one after the other, and enters them.
pub fn read_rest<D: Disk>(
    alloc: Global,
    disk: &mut D,
    area: Area,
    place: u64,
    stacks: &mut Stacks,
    versions: &mut Versions,
) -> Result<Replay, ReplayFault>
    requires piece { IsAtPiece (D.told disk.old) area place }
    requires behind { 0 < place }
    requires small { place < 2 ^ 63 }
    requires bounded { AreNumbersBounded (held stacks.old versions.old) }
    ensures gives { GivesEnd (D.told disk.old) area place (held stacks.old versions.old) (held stacks.new versions.new) result }
    ensures bounded { OnOk result (AreNumbersBounded (held stacks.new versions.new)) }
    ensures behind { IfOk result (λ end. 0 < end.gate) }
    ensures small { IfOk result (λ end. end.gate < 2 ^ 63) }
    ensures come { IfOk result (λ end. MayBeFinished end.last) }
    ensures same { D.told disk.new ≡ D.told disk.old }
    ensures later { D.moment_of disk.old ≤ D.moment_of disk.new }
    ensures count { D.faults disk.old ≤ D.faults disk.new }
    ensures failed { IsErrOf result Disk → Rose (D.faults disk.old) (D.faults disk.new) }
    ensures kept { (IsErrOf result Disk → ⊥) → D.faults disk.new ≡ D.faults disk.old }
{
    let mut at = place;
    let mut last = None;
    loop {
        match round(alloc, disk, area, at, stacks, versions)? {
            Round::Ended { gate } => return Ok(Replay { gate, last }),
            Round::Entered { last: kept, next } => {
                at = next;
                last = kept;
            }
        }
    }
}
