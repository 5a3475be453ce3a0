// Comparing a store's tree with its elements.
ghost use Rattle.std.specs.Prelude.{◌≡◌, ◌≢◌, ◌≤◌, [], true, false, None, Some, IfOk, IfErr, slice_get};
ghost use Rattle.wse_path.specs.Limits.{standard};
ghost use Rattle.wse_apply.specs.Limit.{are_within, limit_hit};
ghost use Rattle.wse_disk.specs.LeavesOnly.{LeavesOnly};
ghost use Rattle.wse_disk.specs.Told.{IsTold, IsAtRest};
ghost use Rattle.wse_element.specs.Linked.{IsStateLinked};
ghost use Rattle.wse_stacks.specs.Stacks.{HaveParts};
ghost use Rattle.wse_txn.specs.Command.{IsAt};
ghost use Rattle.wse_txn.specs.Outcomes.{TellsAsBefore};
ghost use Rattle.wse_recover.specs.Comparing.{IsComparedAs, IsAdoptedWithin, RefusesCompared, RefusesAt};
ghost use Rattle.wse_recover.specs.Differing.{AreDiffering};
ghost use Rattle.wse_recover.specs.Held.{held, AreNumbersBounded};
ghost use Rattle.wse_recover.specs.Open.{opened_state, disk_of_open, disk_of_fault, StandsForOpened};
ghost use Rattle.wse_recover.specs.Opening.{CountsOpen};

use crate::adopting::adopted;
use crate::differing::differing;
use crate::open::{OpenFault, Opened};
use std::alloc::Global;
use wse_disk::Disk;
use wse_path::{Duplicate, Limits, Memory, RelPath};

// The opened store, whose tree is as its elements say.
fn linked<D: Disk>(opened: Opened<D>) -> Opened<D>
    requires same { AreDiffering opened.tree.files opened.stacks.state.records [] }
    requires bounded { AreNumbersBounded (held opened.stacks opened.versions) }
    ensures same { result ≡ opened }
    ensures linked { IsStateLinked (opened_state result) }
    ensures parts { HaveParts result.stacks.state.records }
    ensures rests { IsAtRest (D.told result.idle.disk) }
{
    let _ = opened.stacks.count();
    let _ = opened.idle.disk();
    opened
}

// The refusal of a store whose tree isn't as its elements say, at this path first.
fn refused_at<D: Disk>(alloc: Global, opened: Opened<D>, path: &RelPath) -> OpenFault<D>
    ensures refused { RefusesAt D.told opened path.now result }
    ensures disk { disk_of_fault result ≡ opened.idle.disk }
{
    match path.duplicate(alloc) {
        Ok(path) => OpenFault::Differs {
            disk: opened.into_disk(),
            path,
        },
        Err(Memory) => OpenFault::Memory(opened.into_disk()),
    }
}

/// The opened store, if its tree is as its elements say at each path, and else the refusal with the first path where it isn't.
/// With `adopt` the tree is taken as it is there.
pub(crate) fn compared<D: Disk>(
    alloc: Global,
    opened: Opened<D>,
    adopt: bool,
    limits: &Limits,
) -> Result<Opened<D>, OpenFault<D>>
    requires within { are_within limits.now standard ≡ true }
    requires rests { IsAtRest (D.told opened.idle.disk) }
    requires at { IsTold (D.told opened.idle.disk) → IsAt (opened_state opened) opened.idle.area opened.idle.gate (D.told opened.idle.disk) }
    requires bounded { AreNumbersBounded (held opened.stacks opened.versions) }
    requires fits { limit_hit limits.now opened.tree.files ≡ None }
    ensures compared { IfOk result (λ o. IsComparedAs adopt (opened_state opened) (opened_state o)) }
    ensures adopts { IfOk result (λ o. IsAdoptedWithin limits.now (opened_state opened) (opened_state o)) }
    ensures at { IfOk result (λ o. IsTold (D.told o.idle.disk) → IsAt (opened_state o) o.idle.area o.idle.gate (D.told o.idle.disk)) }
    ensures rests { IfOk result (λ o. IsAtRest (D.told o.idle.disk)) }
    ensures tells { IfOk result (λ o. TellsAsBefore (D.told opened.idle.disk) (D.told o.idle.disk)) }
    ensures linked { IfOk result (λ o. IsStateLinked (opened_state o)) }
    ensures parts { IfOk result (λ o. HaveParts o.stacks.state.records) }
    ensures fits { IfOk result (λ o. limit_hit limits.now o.tree.files ≡ None) }
    ensures during { IsTold (D.told opened.idle.disk)
        → LeavesOnly (D.told opened.idle.disk) (D.told (disk_of_open result)) (StandsForOpened adopt (opened_state opened)) }
    ensures refused { IfErr result (RefusesCompared D.told adopt limits.now opened) }
    ensures later { D.moment_of opened.idle.disk ≤ D.moment_of (disk_of_open result) }
    ensures counts { CountsOpen D.faults opened.idle.disk result }
{
    let Ok(paths) = differing(alloc, &opened.stacks, &opened.tree) else {
        return Err(OpenFault::Memory(opened.into_disk()));
    };
    match paths.as_slice() {
        [] => Ok(linked(opened)),
        [first, ..] if !adopt => Err(refused_at(alloc, opened, first)),
        _ => adopted(alloc, opened, paths, limits),
    }
}
