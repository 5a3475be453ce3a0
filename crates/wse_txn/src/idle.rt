// A disk at rest.
ghost use Rattle.std.specs.Prelude.{◌≡◌, ◌<◌, ◌^◌, IfOk, IfErr, OnOk};
ghost use Rattle.wse_disk.specs.Told.{IsAtRest};
ghost use Rattle.wse_disk.specs.Changes.{LeadsToTree};
ghost use Rattle.wse_codec.specs.Allowed.{IsSpellable, IsAllowedRecord};
ghost use Rattle.wse_txn.specs.Journal.{HasSettledJournal};
ghost use Rattle.wse_log.specs.Writing.{staging};
ghost use Rattle.wse_txn.specs.States.{working, body_of};
ghost use Rattle.wse_txn.specs.declared.idle.DraftRefused.TheVariants.{Memory as WantsMemory};

use crate::drafted::Drafted;
use std::alloc::Global;
use std::marker::Model;
use wse_codec::write_record;
use wse_disk::{Area, Disk};
use wse_element::Plan;
use wse_log::staged_record;
use wse_path::Memory;

/// A disk on which nothing is pending, with a journal whose records are all settled. It owns the disk. Contracts see it as
/// the disk, the journal's area and the place of the journal's closed gate.
pub struct Idle<D: Disk> {
    disk: D,
    area: Area,
    gate: u64,
}

impl<D: Disk> Model for Idle<D> {
    ghost use Rattle.wse_txn.specs.States.{Resting, IsIdle};

    ghost Value = { Resting D };

    ghost view = { λ a. record { disk = a.disk; area = a.area; gate = a.gate } };

    ghost invariant = { λ a. IsIdle (D.told a.disk) a.area a.gate };
}

/// A plan was not drafted, for want of memory. The state is handed back as it was, and no call of the disk was made.
pub enum DraftRefused<D: Disk> {
    /// There was no memory for the record.
    Memory(Idle<D>),
}

// The record of a plan, as it is written.
fn spelled(alloc: Global, plan: &Plan) -> Result<Vec<u8>, Memory>
    requires { IsSpellable plan.now.effects }
    ensures spelled { IfOk result (λ bytes. bytes.items ≡ staging (body_of plan.now)) }
    ensures allowed { OnOk result (IsAllowedRecord plan.now.effects) }
{
    let body = write_record(alloc, plan.effects.as_slice())?;
    staged_record(alloc, body.as_slice())
}

impl<D: Disk> Idle<D> {
    /// The disk with a journal in the area, whose closed gate stands at `gate`.
    pub fn at(disk: D, area: Area, gate: u64) -> Idle<D>
        requires rests { IsAtRest (D.told disk) }
        requires journal { HasSettledJournal (D.told disk) area gate }
        requires small { gate < 2 ^ 63 }
        ensures disk { result.disk ≡ disk }
        ensures area { result.area ≡ area }
        ensures gate { result.gate ≡ gate }
    {
        Idle { disk, area, gate }
    }

    /// The disk.
    pub fn disk(&self) -> &D
        ensures { result.now ≡ self.now.disk }
    {
        &self.disk
    }

    /// Hands the disk back.
    pub fn into_disk(self) -> D
        ensures { result ≡ self.disk }
    {
        let Idle {
            disk,
            area: _,
            gate: _,
        } = self;
        disk
    }

    /// Spells the plan's record. It makes no call of the disk. Without memory it hands itself back.
    pub fn draft(self, alloc: Global, plan: Plan) -> Result<Drafted<D>, DraftRefused<D>>
        requires spellable { IsSpellable plan.effects }
        requires tree { LeadsToTree (D.told self.disk) plan.changes }
        ensures drafted { IfOk result (λ drafted. drafted ≡ working self plan) }
        ensures allowed { OnOk result (IsAllowedRecord plan.effects) }
        ensures back { IfErr result (λ refused. refused ≡ WantsMemory self) }
    {
        match spelled(alloc, &plan) {
            Ok(staged) => {
                let Idle { disk, area, gate } = self;
                Ok(Drafted::new(disk, area, gate, plan, staged))
            }
            Err(_) => Err(DraftRefused::Memory(self)),
        }
    }
}
