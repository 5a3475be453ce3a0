// A record whose changes are made, and which isn't settled yet.
ghost use Rattle.std.specs.Prelude.{◌≡◌, List, IfOk};
ghost use Rattle.wse_disk.specs.Told.{IsAtRest, reading_of, bytes_of_area};
ghost use Rattle.wse_log.specs.Grammar.{JournalRecord};
ghost use Rattle.wse_txn.specs.Journal.{IsUnsettledJournal};
ghost use Rattle.wse_txn.specs.Images.{IsClosing, IsClosed};
ghost use Rattle.wse_txn.specs.States.{StandsUnsettled, body_of};
ghost use Rattle.wse_txn.specs.Outcomes.{FailsByFault, KeepsMoments, Leaves, TellsAsBefore};

use crate::broken::Broken;
use crate::idle::Idle;
use crate::steps::settle_record;
use std::marker::Model;
use wse_disk::{Area, Disk};
use wse_element::Plan;

/// A disk whose journal has the plan's record, not settled, and whose files are changed as the plan says. Contracts see it
/// as the disk, the journal's area, the place of the closed gate behind the record, and the plan.
pub struct Settled<D: Disk> {
    disk: D,
    area: Area,
    gate: u64,
    plan: Plan,
}

impl<D: Disk> Model for Settled<D> {
    ghost use Rattle.wse_txn.specs.States.{Working, StandsUnsettled};

    ghost Value = { Working D };

    ghost view = { λ a. record { disk = a.disk; area = a.area; gate = a.gate; plan = a.plan } };

    ghost invariant = { λ a. StandsUnsettled (D.told a.disk) a.area a.gate a.plan };
}

impl<D: Disk> Settled<D> {
    pub(crate) fn new(disk: D, area: Area, gate: u64, plan: Plan) -> Settled<D>
        requires { StandsUnsettled (D.told disk) area gate plan }
        ensures { result ≡ record { disk = disk; area = area; gate = gate; plan = plan } }
    {
        Settled {
            disk,
            area,
            gate,
            plan,
        }
    }

    /// Settles the record and syncs, and hands the plan back. It takes no memory.
    ///
    /// A crash at any moment leaves the files, and the journal's record settled or not.
    pub fn close(self) -> Result<(Idle<D>, Plan), Broken<D>>
        ensures during { (records : List JournalRecord) → IsUnsettledJournal (bytes_of_area self.area (D.told self.disk)) records (body_of self.plan) self.gate
            → Leaves D.told (λ closed. closed.0.disk) self.disk result
            (IsClosing self.area records self.gate (body_of self.plan) (reading_of (D.told self.disk))) }
        ensures closed { (records : List JournalRecord) → IsUnsettledJournal (bytes_of_area self.area (D.told self.disk)) records (body_of self.plan) self.gate
            → IfOk result (λ closed. IsClosed self.area records self.gate (body_of self.plan) (reading_of (D.told self.disk)) (reading_of (D.told closed.0.disk))) }
        ensures rests { IfOk result (λ closed. IsAtRest (D.told closed.0.disk)) }
        ensures tells { IfOk result (λ closed. TellsAsBefore (D.told self.disk) (D.told closed.0.disk)) }
        ensures same { IfOk result (λ closed. (closed.0.area ≡ self.area) × (closed.0.gate ≡ self.gate) × (closed.1 ≡ self.plan)) }
        ensures later { KeepsMoments D.moment_of (λ closed. closed.0.disk) self.disk result }
        ensures cause { FailsByFault D.faults (λ closed. closed.0.disk) self.disk result }
    {
        let Settled {
            mut disk,
            area,
            gate,
            plan,
        } = self;
        match settle_record(&mut disk, area, gate) {
            Ok(()) => Ok((Idle::at(disk, area, gate), plan)),
            Err(_) => Err(Broken::new(disk)),
        }
    }
}
