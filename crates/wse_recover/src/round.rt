// One round of reading a journal.
ghost use Rattle.std.specs.Prelude.{◌≡◌, ◌≤◌, ◌<◌, ◌+◌, ◌^◌, length, OnOk, IfOk, IfErr, IsErrOf};
ghost use Rattle.wse_recover.specs.declared.fault.ReplayFault.TheVariants.{Disk};
ghost use Rattle.wse_recover.specs.Unread.{IsReadAs, TellsUnread};
ghost use Rattle.wse_path.specs.Causes.{Rose};
ghost use Rattle.wse_log.specs.Scan.{IsAtPiece};
ghost use Rattle.wse_recover.specs.Held.{held, AreNumbersBounded};
ghost use Rattle.wse_recover.specs.Round.{Enters, TellsBody, GivesRound, Rises, RoundMayBeFinished, place_behind};
ghost use Rattle.wse_recover.specs.Unsettled.{MayBeFinished};

use crate::enter::enter;
use crate::fault::{EnterRefused, ReplayFault, Round, of_scan};
use crate::unsettled::Unsettled;
use std::alloc::Global;
use wse_codec::{RecordRefused, read_record};
use wse_disk::{Area, Disk};
use wse_element::Effects;
use wse_log::{Step, scan};
use wse_path::Versions;
use wse_stacks::Stacks;

// The effects that the body behind the gate spells.
fn effects_in(alloc: Global, body: &[u8], gate: u64) -> Result<Effects, ReplayFault>
    requires room { gate + 6 + length body.now < 2 ^ 63 }
    ensures read { IfOk result (λ effects. IsReadAs effects body.now) }
    ensures refused { IfErr result (TellsUnread body.now gate) }
{
    match read_record(alloc, body) {
        Ok(effects) => Ok(effects),
        Err(RecordRefused::NotARecord { at }) => Err(ReplayFault::NotAStore {
            at: gate + 5 + at as u64,
        }),
        Err(RecordRefused::Memory) => Err(ReplayFault::Memory),
    }
}

/// Enters what the body behind the gate spells, and answers what is kept of a record that isn't settled.
pub(crate) fn enter_body(
    alloc: Global,
    stacks: &mut Stacks,
    versions: &mut Versions,
    body: &[u8],
    gate: u64,
    settled: bool,
) -> Result<Option<Unsettled>, ReplayFault>
    requires room { gate + 6 + length body.now < 2 ^ 63 }
    requires bounded { AreNumbersBounded (held stacks.old versions.old) }
    ensures entered { IfOk result (Enters settled (held stacks.old versions.old) body.now (held stacks.new versions.new)) }
    ensures come { IfOk result MayBeFinished }
    ensures bounded { OnOk result (AreNumbersBounded (held stacks.new versions.new)) }
    ensures refused { IfErr result (TellsBody (held stacks.old versions.old) body.now gate) }
    ensures cause { IsErrOf result Disk → ⊥ }
{
    let effects = effects_in(alloc, body, gate)?;
    match enter(alloc, stacks, versions, effects, settled) {
        Ok(last) => Ok(last),
        Err(EnterRefused::NotApplicable) => Err(ReplayFault::NotAStore { at: gate }),
        Err(EnterRefused::Memory) => Err(ReplayFault::Memory),
    }
}

/// Reads one piece of the journal behind its first record, and enters it.
pub fn round<D: Disk>(
    alloc: Global,
    disk: &mut D,
    area: Area,
    place: u64,
    stacks: &mut Stacks,
    versions: &mut Versions,
) -> Result<Round, ReplayFault>
    requires piece { IsAtPiece (D.told disk.old) area place }
    requires behind { 0 < place }
    requires bounded { AreNumbersBounded (held stacks.old versions.old) }
    ensures gives { GivesRound (D.told disk.old) area place (held stacks.old versions.old) (held stacks.new versions.new) result }
    ensures goes_on { IfOk result (λ round. IsAtPiece (D.told disk.new) area (place_behind round)) }
    ensures rises { IfOk result (Rises place) }
    ensures come { IfOk result RoundMayBeFinished }
    ensures bounded { OnOk result (AreNumbersBounded (held stacks.new versions.new)) }
    ensures same { D.told disk.new ≡ D.told disk.old }
    ensures later { D.moment_of disk.old ≤ D.moment_of disk.new }
    ensures count { D.faults disk.old ≤ D.faults disk.new }
    ensures failed { IsErrOf result Disk → Rose (D.faults disk.old) (D.faults disk.new) }
    ensures kept { (IsErrOf result Disk → ⊥) → D.faults disk.new ≡ D.faults disk.old }
{
    let step = match scan(alloc, disk, area, place) {
        Ok(step) => step,
        Err(fault) => return Err(of_scan(fault)),
    };
    match step {
        Step::End { gate } => Ok(Round::Ended { gate }),
        Step::Entry {
            body,
            gate,
            settled,
            next,
        } => {
            let last = enter_body(alloc, stacks, versions, body.as_slice(), gate, settled)?;
            Ok(Round::Entered { last, next })
        }
    }
}
