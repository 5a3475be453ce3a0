// What becomes of a last record that isn't settled.
ghost use Rattle.std.specs.Prelude.{◌≡◌, ◌≤◌, ◌<◌, ◌^◌, Some, IfOk, IfErr};
ghost use Rattle.wse_element.specs.State.{State};
ghost use Rattle.wse_disk.specs.LeavesOnly.{LeavesOnly};
ghost use Rattle.wse_disk.specs.Told.{IsAtRest, IsSynced, reading_of};
ghost use Rattle.wse_txn.specs.Command.{IsAt};
ghost use Rattle.wse_txn.specs.Outcomes.{TellsAsBefore};
ghost use Rattle.wse_txn.specs.Stands.{StandsFor};
ghost use Rattle.wse_recover.specs.Finishing.{HasFinishCause};
ghost use Rattle.wse_recover.specs.Opening.{EndsWith, IsPlanFor, TellsInTheWay, RefusesFinishing, CountsStep, disk_of_step};
ghost use Rattle.wse_recover.specs.Sets.{AreToCome};
ghost use Rattle.wse_recover.specs.Unsettled.{MayBeFinished};

use crate::changes::plan_to_finish;
use crate::fault::Unfinished;
use crate::finish::finish;
use crate::in_the_way::first_in_the_way;
use crate::load::load_tree;
use crate::open::OpenFault;
use crate::unsettled::Unsettled;
use std::alloc::Global;
use wse_disk::{Area, Disk};
use wse_element::Plan;
use wse_txn::Sealed;

// The record's plan over the tree that the disk holds.
fn plan_on<D: Disk>(alloc: Global, disk: &mut D, last: Unsettled) -> Result<Plan, Unfinished>
    requires come { AreToCome last.sets }
    ensures plan { IfOk result (IsPlanFor (D.told disk.old) last) }
    ensures refused { IfErr result (TellsInTheWay (D.told disk.old) last) }
    ensures same { D.told disk.new ≡ D.told disk.old }
    ensures later { D.moment_of disk.old ≤ D.moment_of disk.new }
    ensures cause { HasFinishCause (D.faults disk.old) (D.faults disk.new) result }
{
    let tree = load_tree(alloc, disk)?;
    let Unsettled { effects, sets } = last;
    if let Some(path) = first_in_the_way(alloc, &tree, sets.as_slice())? {
        return Err(Unfinished::InTheWay(path));
    }
    let changes = plan_to_finish(alloc, &tree, sets)?;
    Ok(Plan { effects, changes })
}

/// Finishes the last record, which isn't settled: makes its changes and settles it. A crash at any moment leaves a disk that
/// stands for the same state. Where a file is in its way nothing is written.
pub(crate) fn finish_last<D: Disk>(
    alloc: Global,
    disk: D,
    area: Area,
    gate: u64,
    last: Unsettled,
) -> Result<D, OpenFault<D>>
    requires synced { IsSynced (D.told disk) }
    requires behind { 0 < gate }
    requires small { gate < 2 ^ 63 }
    requires come { AreToCome last.sets }
    requires ends { EndsWith (D.told disk) area gate (Some last) }
    ensures at { (s : State) → StandsFor s (reading_of (D.told disk)) → IfOk result (λ new. IsAt s area gate (D.told new)) }
    ensures during { (s : State) → StandsFor s (reading_of (D.told disk))
        → LeavesOnly (D.told disk) (D.told (disk_of_step result)) (StandsFor s) }
    ensures rests { IfOk result (λ new. IsAtRest (D.told new)) }
    ensures tells { IfOk result (λ new. TellsAsBefore (D.told disk) (D.told new)) }
    ensures refused { IfErr result (RefusesFinishing D.told disk) }
    ensures later { D.moment_of disk ≤ D.moment_of (disk_of_step result) }
    ensures counts { CountsStep D.faults disk result }
{
    let mut disk = disk;
    match plan_on(alloc, &mut disk, last) {
        Ok(plan) => match finish(Sealed::at(disk, area, gate, plan)) {
            Ok(idle) => Ok(idle.into_disk()),
            Err(disk) => Err(OpenFault::Disk(disk)),
        },
        Err(Unfinished::Disk) => Err(OpenFault::Disk(disk)),
        Err(Unfinished::InTheWay(path)) => Err(OpenFault::Differs { disk, path }),
        Err(Unfinished::Memory) => Err(OpenFault::Memory(disk)),
    }
}

/// Finishes the last record, where it isn't settled. Else no call of the disk is made.
pub(crate) fn settled<D: Disk>(
    alloc: Global,
    disk: D,
    area: Area,
    gate: u64,
    last: Option<Unsettled>,
) -> Result<D, OpenFault<D>>
    requires synced { IsSynced (D.told disk) }
    requires behind { 0 < gate }
    requires small { gate < 2 ^ 63 }
    requires come { MayBeFinished last }
    requires ends { EndsWith (D.told disk) area gate last }
    ensures at { (s : State) → StandsFor s (reading_of (D.told disk)) → IfOk result (λ new. IsAt s area gate (D.told new)) }
    ensures during { (s : State) → StandsFor s (reading_of (D.told disk))
        → LeavesOnly (D.told disk) (D.told (disk_of_step result)) (StandsFor s) }
    ensures rests { IfOk result (λ new. IsAtRest (D.told new)) }
    ensures tells { IfOk result (λ new. TellsAsBefore (D.told disk) (D.told new)) }
    ensures refused { IfErr result (RefusesFinishing D.told disk) }
    ensures later { D.moment_of disk ≤ D.moment_of (disk_of_step result) }
    ensures counts { CountsStep D.faults disk result }
{
    match last {
        Some(last) => finish_last(alloc, disk, area, gate, last),
        None => Ok(disk),
    }
}
