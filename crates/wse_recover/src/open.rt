// Opening a store.
ghost use Rattle.std.specs.Prelude.{◌≡◌, ◌≤◌, true, None, IfOk, IfErr};
ghost use Rattle.wse_path.specs.Limits.{standard};
ghost use Rattle.wse_apply.specs.Limit.{are_within, limit_hit};
ghost use Rattle.wse_element.specs.State.{State};
ghost use Rattle.wse_element.specs.Linked.{IsStateLinked};
ghost use Rattle.wse_stacks.specs.Stacks.{HaveParts};
ghost use Rattle.wse_disk.specs.Told.{WhereTold, reading_of, IsTold, IsAtRest};
ghost use Rattle.wse_txn.specs.Stands.{StandsFor};
ghost use Rattle.wse_txn.specs.Command.{IsAt};
ghost use Rattle.wse_txn.specs.Outcomes.{TellsAsBefore};
ghost use Rattle.wse_recover.specs.Open.{AdoptsWithin, opened_state, IsOpened, RefusesOpen, LeavesOpening, disk_of_open, OpenGoesOn};

use crate::compared::compared;
use crate::found::found;
use std::alloc::Global;
use wse_disk::Disk;
use wse_path::{Limits, RelPath, Tree, Versions, Which};
use wse_stacks::Stacks;
use wse_txn::Idle;

/// An opened store: the disk with its journal, and what it holds.
pub struct Opened<D: Disk> {
    pub idle: Idle<D>,
    pub stacks: Stacks,
    pub versions: Versions,
    pub tree: Tree,
}

impl<D: Disk> Opened<D> {
    /// Hands the disk back, on which nothing is pending.
    pub fn into_disk(self) -> D
        ensures { result ≡ self.idle.disk }
    {
        let Opened {
            idle,
            stacks: _,
            versions: _,
            tree: _,
        } = self;
        idle.into_disk()
    }
}

/// Why a store isn't opened. The disk is handed back.
pub enum OpenFault<D: Disk> {
    /// The disk failed.
    Disk(D),
    /// The chosen journal is none of a store: the first place at which it isn't one.
    NotAStore { disk: D, at: u64 },
    /// The finished tree passes this limit, or adopting would: so many there are.
    TooBig { disk: D, which: Which, found: u64 },
    /// The first file that is in the way of an unsettled record; or the first path that isn't as the elements say.
    Differs { disk: D, path: RelPath },
    /// There was no memory.
    Memory(D),
}

/// Opens the store on the disk: syncs, reads the chosen journal, finishes a last record that isn't settled, and tries the tree
/// against the limits and the elements. With `adopt` what differs is taken as it is: its history becomes invalid and its
/// version rises by one, as one record. However it ends, a crash at any moment leaves what a crash at the start might have
/// left, or the same state; or with `adopt`, where it answers Ok or that the disk failed, the adopted one. A refusal and want of
/// memory adopt nothing.
pub fn open_store<D: Disk>(
    alloc: Global,
    disk: D,
    adopt: bool,
    limits: &Limits,
) -> Result<Opened<D>, OpenFault<D>>
    requires within { are_within limits.now standard ≡ true }
    ensures opened { IfOk result (λ o. WhereTold (D.told disk) (λ t. IsOpened adopt (opened_state o) t.reading)) }
    ensures adopts { IfOk result (λ o. WhereTold (D.told disk) (λ t. AdoptsWithin limits.now (opened_state o) t.reading)) }
    ensures at { IfOk result (λ o. IsTold (D.told o.idle.disk) → IsAt (opened_state o) o.idle.area o.idle.gate (D.told o.idle.disk)) }
    ensures rests { IfOk result (λ o. IsAtRest (D.told o.idle.disk)) }
    ensures tells { IfOk result (λ o. TellsAsBefore (D.told disk) (D.told o.idle.disk)) }
    ensures linked { IfOk result (λ o. IsStateLinked (opened_state o)) }
    ensures parts { IfOk result (λ o. HaveParts o.stacks.state.records) }
    ensures fits { IfOk result (λ o. limit_hit limits.now o.tree.files ≡ None) }
    ensures during { (s : State) → StandsFor s (reading_of (D.told disk)) → LeavesOpening adopt D.told disk s result }
    ensures refused { IfErr result (RefusesOpen D.told D.faults adopt limits.now disk) }
    ensures later { D.moment_of disk ≤ D.moment_of (disk_of_open result) }
    ensures kept { OpenGoesOn D.faults disk result }
{
    let opened = found(alloc, disk, limits)?;
    compared(alloc, opened, adopt, limits)
}
