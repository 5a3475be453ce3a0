// Reading the journal of a store.
ghost use Rattle.std.specs.Prelude.{◌≡◌, ◌≤◌, ◌<◌, ◌^◌, IfOk, IsErrOf};
ghost use Rattle.wse_path.specs.Causes.{Rose};
ghost use Rattle.wse_recover.specs.declared.fault.ReplayFault.TheVariants.{Disk};
ghost use Rattle.wse_recover.specs.Held.{held, AreNumbersBounded};
ghost use Rattle.wse_recover.specs.Choose.{ReadsChosen};
ghost use Rattle.wse_recover.specs.Journal.{GivesJournal};
ghost use Rattle.wse_recover.specs.Unsettled.{MayBeFinished};

use crate::choose::chosen;
use crate::fault::ReplayFault;
use crate::first_record::{Begun, read_first};
use crate::replay::read_rest;
use crate::unsettled::Unsettled;
use std::alloc::Global;
use wse_disk::{Area, Disk};
use wse_path::Versions;
use wse_stacks::Stacks;

/// What the chosen journal leaves: its area, the place of its closed gate, its last record where that isn't settled, and what
/// is kept, with that record entered.
#[derive(Drop)]
pub struct Journal {
    pub area: Area,
    pub gate: u64,
    pub last: Option<Unsettled>,
    pub stacks: Stacks,
    pub versions: Versions,
}

/// Reads the journal that the switch chooses, from its first record to its closed gate: each record is read, tried and entered
/// before the next is looked at. It writes nothing. `NotAStore` names the first place at which it is no journal of a store.
pub fn read_journal<D: Disk>(alloc: Global, disk: &mut D) -> Result<Journal, ReplayFault>
    ensures chosen { IfOk result (λ journal. ReadsChosen (D.told disk.old) journal.area) }
    ensures gives { GivesJournal (D.told disk.old) result }
    ensures bounded { IfOk result (λ journal. AreNumbersBounded (held journal.stacks journal.versions)) }
    ensures behind { IfOk result (λ journal. 0 < journal.gate) }
    ensures small { IfOk result (λ journal. journal.gate < 2 ^ 63) }
    ensures come { IfOk result (λ journal. MayBeFinished journal.last) }
    ensures same { D.told disk.new ≡ D.told disk.old }
    ensures later { D.moment_of disk.old ≤ D.moment_of disk.new }
    ensures count { D.faults disk.old ≤ D.faults disk.new }
    ensures failed { IsErrOf result Disk → Rose (D.faults disk.old) (D.faults disk.new) }
    ensures kept { (IsErrOf result Disk → ⊥) → D.faults disk.new ≡ D.faults disk.old }
{
    let area = chosen(disk)?;
    let Begun {
        mut stacks,
        mut versions,
        next,
    } = read_first(alloc, disk, area)?;
    let end = read_rest(alloc, disk, area, next, &mut stacks, &mut versions)?;
    Ok(Journal {
        area,
        gate: end.gate,
        last: end.last,
        stacks,
        versions,
    })
}
