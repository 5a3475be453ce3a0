// A record that is written and not yet settled, in front of its changes.
ghost use Rattle.std.specs.Prelude.{◌≡◌, IfOk};
ghost use Rattle.wse_disk.specs.Told.{IsSynced, reading_of};
ghost use Rattle.wse_disk.specs.Changes.{HasChanged, ChangesOnly};
ghost use Rattle.wse_txn.specs.States.{IsSealedFor};
ghost use Rattle.wse_txn.specs.Outcomes.{FailsByFault, KeepsMoments, Leaves, TellsAsBefore};

use crate::broken::Broken;
use crate::settled::Settled;
use std::marker::Model;
use wse_disk::{Area, Disk, make_synced};
use wse_element::Plan;

/// A disk whose journal has the plan's record, not settled, and whose files aren't changed yet. Contracts see it as the
/// disk, the journal's area, the place of the closed gate behind the record, and the plan.
pub struct Sealed<D: Disk> {
    disk: D,
    area: Area,
    gate: u64,
    plan: Plan,
}

impl<D: Disk> Model for Sealed<D> {
    ghost use Rattle.wse_txn.specs.States.{Working, IsSealedFor};

    ghost Value = { Working D };

    ghost view = { λ a. record { disk = a.disk; area = a.area; gate = a.gate; plan = a.plan } };

    ghost invariant = { λ a. IsSealedFor (D.told a.disk) a.area a.gate a.plan };
}

impl<D: Disk> Sealed<D> {
    /// The disk with a journal in the area, whose last record is the plan's and isn't settled, and whose closed gate stands
    /// at `gate`.
    pub fn at(disk: D, area: Area, gate: u64, plan: Plan) -> Sealed<D>
        requires { IsSealedFor (D.told disk) area gate plan }
        ensures { result ≡ record { disk = disk; area = area; gate = gate; plan = plan } }
    {
        Sealed {
            disk,
            area,
            gate,
            plan,
        }
    }

    /// Makes the plan's changes: erases what is to be absent and syncs, then stores the rest and syncs. A part without paths
    /// makes no call of the disk. It takes no memory.
    ///
    /// A crash at any moment leaves the areas, and the old files but for the paths that change.
    pub fn settle(self) -> Result<Settled<D>, Broken<D>>
        ensures during { Leaves D.told (λ settled. settled.disk) self.disk result (ChangesOnly self.plan.changes (reading_of (D.told self.disk))) }
        ensures changed { IfOk result (λ settled. HasChanged self.plan.changes (D.told self.disk) (D.told settled.disk)) }
        ensures synced { IfOk result (λ settled. IsSynced (D.told settled.disk)) }
        ensures tells { IfOk result (λ settled. TellsAsBefore (D.told self.disk) (D.told settled.disk)) }
        ensures same { IfOk result (λ settled. (settled.area ≡ self.area) × (settled.gate ≡ self.gate) × (settled.plan ≡ self.plan)) }
        ensures later { KeepsMoments D.moment_of (λ settled. settled.disk) self.disk result }
        ensures cause { FailsByFault D.faults (λ settled. settled.disk) self.disk result }
    {
        let Sealed {
            mut disk,
            area,
            gate,
            plan,
        } = self;
        match make_synced(&mut disk, plan.changes.as_slice()) {
            Ok(()) => Ok(Settled::new(disk, area, gate, plan)),
            Err(_) => Err(Broken::new(disk)),
        }
    }
}
