// A record that is spelled and not yet written.
ghost use Rattle.std.specs.Prelude.{◌≡◌, ◌<◌, ◌^◌, List, IfOk};
ghost use Rattle.wse_element.specs.declared.plan.Plan.{Plan as PlanValue};
ghost use Rattle.wse_disk.specs.Told.{IsSynced, reading_of, bytes_of_area};
ghost use Rattle.wse_log.specs.Grammar.{JournalRecord};
ghost use Rattle.wse_log.specs.Writing.{next_gate};
ghost use Rattle.wse_txn.specs.Journal.{IsSettledJournal};
ghost use Rattle.wse_txn.specs.Images.{IsSealing, IsSealed};
ghost use Rattle.wse_txn.specs.States.{IsDrafted, body_of};
ghost use Rattle.wse_txn.specs.Outcomes.{FailsByFault, KeepsMoments, Leaves, TellsAsBefore};

use crate::broken::Broken;
use crate::sealed::Sealed;
use crate::steps::write_record;
use std::marker::Model;
use wse_disk::{Area, Disk};
use wse_element::Plan;

/// A disk at rest with a plan whose record is spelled. Contracts see it as the disk, the journal's area, the place of the
/// journal's closed gate, and the plan.
pub struct Drafted<D: Disk> {
    disk: D,
    area: Area,
    gate: u64,
    plan: Plan,
    staged: Vec<u8>,
}

impl<D: Disk> Model for Drafted<D> {
    ghost use Rattle.wse_txn.specs.States.{Working, IsDrafted};

    ghost Value = { Working D };

    ghost view = { λ a. record { disk = a.disk; area = a.area; gate = a.gate; plan = a.plan } };

    ghost invariant = { λ a. IsDrafted (D.told a.disk) a.area a.gate a.plan a.staged.items };
}

impl<D: Disk> Drafted<D> {
    /// The disk with a plan and the bytes that are written of its record.
    pub(crate) fn new(disk: D, area: Area, gate: u64, plan: Plan, staged: Vec<u8>) -> Drafted<D>
        requires { IsDrafted (D.told disk) area gate plan staged.items }
        ensures { result ≡ record { disk = disk; area = area; gate = gate; plan = plan } }
    {
        Drafted {
            disk,
            area,
            gate,
            plan,
            staged,
        }
    }

    /// Writes the record behind the closed gate in one write, syncs, opens the gate and syncs. It takes no memory.
    ///
    /// A crash at any moment leaves the old files, and in the journal the old records, or these and the new one, which isn't
    /// settled. This project's own rule.
    pub fn seal(self) -> Result<Sealed<D>, Broken<D>>
        ensures during { (records : List JournalRecord) → IsSettledJournal (bytes_of_area self.area (D.told self.disk)) records self.gate
            → Leaves D.told (λ sealed. sealed.disk) self.disk result
            (IsSealing self.area records self.gate (body_of self.plan) (reading_of (D.told self.disk))) }
        ensures sealed { (records : List JournalRecord) → IsSettledJournal (bytes_of_area self.area (D.told self.disk)) records self.gate
            → IfOk result (λ sealed. IsSealed self.area records self.gate (body_of self.plan) (reading_of (D.told self.disk)) (reading_of (D.told sealed.disk))) }
        ensures synced { IfOk result (λ sealed. IsSynced (D.told sealed.disk)) }
        ensures tells { IfOk result (λ sealed. TellsAsBefore (D.told self.disk) (D.told sealed.disk)) }
        ensures gate { IfOk result (λ sealed. sealed.gate ≡ next_gate self.gate (body_of self.plan)) }
        ensures same { IfOk result (λ sealed. (sealed.area ≡ self.area) × (sealed.plan ≡ self.plan)) }
        ensures later { KeepsMoments D.moment_of (λ sealed. sealed.disk) self.disk result }
        ensures cause { FailsByFault D.faults (λ sealed. sealed.disk) self.disk result }
    {
        let Drafted {
            mut disk,
            area,
            gate,
            plan,
            staged,
        } = self;
        match write_record(&mut disk, area, gate, staged.as_slice()) {
            Ok(()) => Ok(Sealed::at(disk, area, gate + staged.len() as u64, plan)),
            Err(_) => Err(Broken::new(disk)),
        }
    }
}
