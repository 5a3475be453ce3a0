// The writes of one record, each of which is synced before the next.
ghost use Rattle.std.specs.Prelude.{◌≡◌, ◌<◌, ◌≤◌, ◌+◌, ◌^◌, List, ℕ, length, OnOk};
ghost use Rattle.wse_path.specs.Causes.{HasCause};
ghost use Rattle.wse_disk.specs.Told.{IsAtRest, IsSynced, reading_of, bytes_of_area};
ghost use Rattle.wse_disk.specs.LeavesOnly.{LeavesOnly};
ghost use Rattle.wse_log.specs.Grammar.{JournalRecord};
ghost use Rattle.wse_log.specs.Writing.{staging};
ghost use Rattle.wse_txn.specs.Journal.{IsSettledJournal, IsUnsettledJournal, HasSettledJournal, HasUnsettledJournal, HasGate};
ghost use Rattle.wse_txn.specs.Images.{IsSealing, IsSealed, IsClosing, IsClosed};
ghost use Rattle.wse_txn.specs.Outcomes.{TellsAsBefore};
ghost use Rattle.wse_txn.specs.Steps.{IsStagedFor, HasSealed};

use wse_disk::{Area, Disk, Failed, write_synced};
use wse_log::{OPEN_GATE, SETTLED};

/// Writes a record behind the closed gate, and then opens the gate.
#[tactic(auto, using(crate::proofs::ToldSteps::behind_gate_patchable, crate::proofs::ToldSteps::gate_patchable))]
pub fn write_record<D: Disk>(
    disk: &mut D,
    area: Area,
    gate: u64,
    staged: &[u8],
) -> Result<(), Failed>
    requires some { 0 < length staged.now }
    requires gate { HasGate (D.told disk.old) area gate }
    requires small { gate < 2 ^ 63 }
    ensures during { IsAtRest (D.told disk.old) → (records : List JournalRecord) (body : List ℕ)
        → IsSettledJournal (bytes_of_area area (D.told disk.old)) records gate → IsStagedFor body staged.now
        → LeavesOnly (D.told disk.old) (D.told disk.new) (IsSealing area records gate body (reading_of (D.told disk.old))) }
    ensures sealed { (records : List JournalRecord) (body : List ℕ)
        → IsSettledJournal (bytes_of_area area (D.told disk.old)) records gate → IsStagedFor body staged.now
        → OnOk result (IsSealed area records gate body (reading_of (D.told disk.old)) (reading_of (D.told disk.new))) }
    ensures journal { (body : List ℕ) → HasSettledJournal (D.told disk.old) area gate → IsStagedFor body staged.now
        → OnOk result (HasSealed area gate body (D.told disk.old) (D.told disk.new)) }
    ensures synced { OnOk result (IsSynced (D.told disk.new)) }
    ensures tells { OnOk result (TellsAsBefore (D.told disk.old) (D.told disk.new)) }
    ensures bounded { OnOk result (gate + 1 + length staged.now ≤ 2 ^ 63) }
    ensures later { D.moment_of disk.old ≤ D.moment_of disk.new }
    ensures cause { HasCause (D.faults disk.old) (D.faults disk.new) result }
{
    write_synced(disk, area, gate + 1, staged)?;
    write_synced(disk, area, gate, &[OPEN_GATE])
}

/// Settles the last record, which ends in front of the closed gate.
pub fn settle_record<D: Disk>(disk: &mut D, area: Area, gate: u64) -> Result<(), Failed>
    requires gate { HasGate (D.told disk.old) area gate }
    requires some { 0 < gate }
    ensures during { IsAtRest (D.told disk.old) → (records : List JournalRecord) (body : List ℕ)
        → IsUnsettledJournal (bytes_of_area area (D.told disk.old)) records body gate
        → LeavesOnly (D.told disk.old) (D.told disk.new) (IsClosing area records gate body (reading_of (D.told disk.old))) }
    ensures closed { (records : List JournalRecord) (body : List ℕ)
        → IsUnsettledJournal (bytes_of_area area (D.told disk.old)) records body gate
        → OnOk result (IsClosed area records gate body (reading_of (D.told disk.old)) (reading_of (D.told disk.new))) }
    ensures journal { (body : List ℕ) → HasUnsettledJournal (D.told disk.old) area body gate
        → OnOk result (HasSettledJournal (D.told disk.new) area gate) }
    ensures rests { OnOk result (IsAtRest (D.told disk.new)) }
    ensures tells { OnOk result (TellsAsBefore (D.told disk.old) (D.told disk.new)) }
    ensures later { D.moment_of disk.old ≤ D.moment_of disk.new }
    ensures cause { HasCause (D.faults disk.old) (D.faults disk.new) result }
{
    write_synced(disk, area, gate - 1, &[SETTLED])
}
