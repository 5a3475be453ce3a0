// A store on a disk, before its tree is compared with its elements.
ghost use Rattle.std.specs.Prelude.{◌≡◌, ◌≤◌, ◌<◌, ◌^◌, None, IfOk, IfErr};
ghost use Rattle.wse_apply.specs.Limit.{limit_hit};
ghost use Rattle.wse_element.specs.State.{State};
ghost use Rattle.wse_disk.specs.LeavesOnly.{LeavesOnly};
ghost use Rattle.wse_disk.specs.Told.{WhereTold, IsAtRest, IsSynced, IsTold, reading_of};
ghost use Rattle.wse_txn.specs.Command.{IsAt};
ghost use Rattle.wse_txn.specs.Journal.{HasSettledJournal};
ghost use Rattle.wse_txn.specs.Outcomes.{TellsAsBefore};
ghost use Rattle.wse_txn.specs.Stands.{StandsFor};
ghost use Rattle.wse_recover.specs.Held.{held, AreNumbersBounded};
ghost use Rattle.wse_recover.specs.Open.{opened_state, disk_of_open};
ghost use Rattle.wse_recover.specs.Opening.{HasJournal, IsFoundOn, RefusesTreeOn, RefusesFoundBy, RefusesFound, CountsOpen, LeavesEarlierOr};
ghost use Rattle.wse_recover.specs.Start.{start_hit};
ghost use Rattle.wse_recover.specs.Unsettled.{MayBeFinished};

use crate::begin::read_synced;
use crate::fault::{ReplayFault, Unmade};
use crate::open::{OpenFault, Opened};
use crate::read::Journal;
use crate::unfinished::settled;
use crate::within::tree_within;
use std::alloc::Global;
use wse_disk::{Area, Disk};
use wse_path::{Limits, Versions};
use wse_stacks::Stacks;
use wse_txn::Idle;

// The store of a disk at rest whose records are all settled, with the tree that the disk holds.
fn with_tree<D: Disk>(
    alloc: Global,
    disk: D,
    area: Area,
    gate: u64,
    stacks: Stacks,
    versions: Versions,
    limits: &Limits,
) -> Result<Opened<D>, OpenFault<D>>
    requires rests { IsAtRest (D.told disk) }
    requires journal { HasSettledJournal (D.told disk) area gate }
    requires small { gate < 2 ^ 63 }
    ensures found { IfOk result (IsFoundOn D.told disk area gate stacks versions) }
    ensures fits { IfOk result (λ o. limit_hit limits.now o.tree.files ≡ None) }
    ensures starts { IfOk result (λ o. start_hit limits.now o.tree.files ≡ None) }
    ensures refused { IfErr result (RefusesTreeOn D.told limits.now disk) }
    ensures later { D.moment_of disk ≤ D.moment_of (disk_of_open result) }
    ensures counts { CountsOpen D.faults disk result }
{
    let mut disk = disk;
    match tree_within(alloc, &mut disk, limits) {
        Ok(tree) => Ok(Opened {
            idle: Idle::at(disk, area, gate),
            stacks,
            versions,
            tree,
        }),
        Err(Unmade::Disk) => Err(OpenFault::Disk(disk)),
        Err(Unmade::TooBig(hit)) => Err(OpenFault::TooBig {
            disk,
            which: hit.which,
            found: hit.would_be,
        }),
        Err(Unmade::Memory) => Err(OpenFault::Memory(disk)),
    }
}

// The store that a synced disk has with this journal.
fn found_by<D: Disk>(
    alloc: Global,
    disk: D,
    journal: Journal,
    limits: &Limits,
) -> Result<Opened<D>, OpenFault<D>>
    requires synced { IsSynced (D.told disk) }
    requires behind { 0 < journal.gate }
    requires small { journal.gate < 2 ^ 63 }
    requires come { MayBeFinished journal.last }
    requires journal { HasJournal (D.told disk) journal }
    ensures stood { IfOk result (λ o. WhereTold (D.told disk) (λ t. StandsFor (opened_state o) t.reading)) }
    ensures at { IfOk result (λ o. IsTold (D.told o.idle.disk) → IsAt (opened_state o) o.idle.area o.idle.gate (D.told o.idle.disk)) }
    ensures rests { IfOk result (λ o. IsAtRest (D.told o.idle.disk)) }
    ensures tells { IfOk result (λ o. TellsAsBefore (D.told disk) (D.told o.idle.disk)) }
    ensures kept { IfOk result (λ o. held o.stacks o.versions ≡ held journal.stacks journal.versions) }
    ensures fits { IfOk result (λ o. limit_hit limits.now o.tree.files ≡ None) }
    ensures starts { IfOk result (λ o. start_hit limits.now o.tree.files ≡ None) }
    ensures during { (s : State) → StandsFor s (reading_of (D.told disk))
        → LeavesOnly (D.told disk) (D.told (disk_of_open result)) (StandsFor s) }
    ensures refused { IfErr result (RefusesFoundBy D.told limits.now disk) }
    ensures later { D.moment_of disk ≤ D.moment_of (disk_of_open result) }
    ensures counts { CountsOpen D.faults disk result }
{
    let Journal {
        area,
        gate,
        last,
        stacks,
        versions,
    } = journal;
    let disk = settled(alloc, disk, area, gate, last)?;
    with_tree(alloc, disk, area, gate, stacks, versions, limits)
}

/// The store that the disk has: syncs, reads the journal, finishes its last record where that isn't settled, and loads the
/// tree, unless that passes a limit. Its tree isn't compared with its elements yet.
pub(crate) fn found<D: Disk>(
    alloc: Global,
    disk: D,
    limits: &Limits,
) -> Result<Opened<D>, OpenFault<D>>
    ensures stood { IfOk result (λ o. WhereTold (D.told disk) (λ t. StandsFor (opened_state o) t.reading)) }
    ensures at { IfOk result (λ o. IsTold (D.told o.idle.disk) → IsAt (opened_state o) o.idle.area o.idle.gate (D.told o.idle.disk)) }
    ensures rests { IfOk result (λ o. IsAtRest (D.told o.idle.disk)) }
    ensures tells { IfOk result (λ o. TellsAsBefore (D.told disk) (D.told o.idle.disk)) }
    ensures bounded { IfOk result (λ o. AreNumbersBounded (held o.stacks o.versions)) }
    ensures fits { IfOk result (λ o. limit_hit limits.now o.tree.files ≡ None) }
    ensures starts { IfOk result (λ o. start_hit limits.now o.tree.files ≡ None) }
    ensures during { (s : State) → StandsFor s (reading_of (D.told disk))
        → LeavesEarlierOr s (D.told disk) (D.told (disk_of_open result)) }
    ensures refused { IfErr result (RefusesFound D.told limits.now disk) }
    ensures later { D.moment_of disk ≤ D.moment_of (disk_of_open result) }
    ensures counts { CountsOpen D.faults disk result }
{
    let mut disk = disk;
    match read_synced(alloc, &mut disk) {
        Ok(journal) => found_by(alloc, disk, journal, limits),
        Err(ReplayFault::Disk) => Err(OpenFault::Disk(disk)),
        Err(ReplayFault::NotAStore { at }) => Err(OpenFault::NotAStore { disk, at }),
        Err(ReplayFault::Memory) => Err(OpenFault::Memory(disk)),
    }
}
