// Reading a journal's first record.
ghost use Rattle.std.specs.Prelude.{◌≡◌, ◌≤◌, ◌<◌, ◌+◌, ◌^◌, length, IfOk, IfErr, IsErrOf};
ghost use Rattle.wse_path.specs.Causes.{Rose};
ghost use Rattle.wse_log.specs.Scan.{IsAtPiece};
ghost use Rattle.wse_recover.specs.declared.fault.ReplayFault.TheVariants.{Disk};
ghost use Rattle.wse_recover.specs.Held.{held, AreNumbersBounded};
ghost use Rattle.wse_recover.specs.FirstRecord.{IsBegunBy, TellsFirstBody, GivesFirstRead, IsStateOf, TellsNoState};

use crate::fault::{ReplayFault, of_scan};
use crate::snapshot::held;
use std::alloc::Global;
use wse_codec::{RecordRefused, Snapshot, read_state};
use wse_disk::{Area, Disk};
use wse_log::{Step, scan};
use wse_path::Versions;
use wse_stacks::Stacks;

/// What the first record leaves, and where the next piece stands.
#[derive(Drop)]
pub struct Begun {
    pub stacks: Stacks,
    pub versions: Versions,
    pub next: u64,
}

// The state that the body behind the gate spells.
fn state_in(alloc: Global, body: &[u8], gate: u64) -> Result<Snapshot, ReplayFault>
    requires room { gate + 6 + length body.now < 2 ^ 63 }
    ensures read { IfOk result (IsStateOf body.now) }
    ensures refused { IfErr result (TellsNoState body.now gate) }
{
    match read_state(alloc, body) {
        Ok(state) => Ok(state),
        Err(RecordRefused::NotARecord { at }) => Err(ReplayFault::NotAStore {
            at: gate + 5 + at as u64,
        }),
        Err(RecordRefused::Memory) => Err(ReplayFault::Memory),
    }
}

// What the first record leaves, whose body stands behind the gate.
fn begin(alloc: Global, body: &[u8], gate: u64, next: u64) -> Result<Begun, ReplayFault>
    requires room { gate + 6 + length body.now < 2 ^ 63 }
    ensures begun { IfOk result (λ begun. IsBegunBy body.now (held begun.stacks begun.versions)) }
    ensures next { IfOk result (λ begun. begun.next ≡ next) }
    ensures refused { IfErr result (TellsFirstBody body.now gate) }
    ensures cause { IsErrOf result Disk → ⊥ }
{
    let state = state_in(alloc, body, gate)?;
    match held(alloc, state)? {
        Some((stacks, versions)) => Ok(Begun {
            stacks,
            versions,
            next,
        }),
        None => Err(ReplayFault::NotAStore { at: gate }),
    }
}

/// Reads the journal's first record.
pub fn read_first<D: Disk>(alloc: Global, disk: &mut D, area: Area) -> Result<Begun, ReplayFault>
    ensures gives { GivesFirstRead (D.told disk.old) area result }
    ensures bounded { IfOk result (λ begun. AreNumbersBounded (held begun.stacks begun.versions)) }
    ensures goes_on { IfOk result (λ begun. IsAtPiece (D.told disk.new) area begun.next) }
    ensures behind { IfOk result (λ begun. 0 < begun.next) }
    ensures small { IfOk result (λ begun. begun.next < 2 ^ 63) }
    ensures same { D.told disk.new ≡ D.told disk.old }
    ensures later { D.moment_of disk.old ≤ D.moment_of disk.new }
    ensures count { D.faults disk.old ≤ D.faults disk.new }
    ensures failed { IsErrOf result Disk → Rose (D.faults disk.old) (D.faults disk.new) }
    ensures kept { (IsErrOf result Disk → ⊥) → D.faults disk.new ≡ D.faults disk.old }
{
    let step = match scan(alloc, disk, area, 0) {
        Ok(step) => step,
        Err(fault) => return Err(of_scan(fault)),
    };
    match step {
        Step::Entry {
            body,
            gate,
            next,
            ..
        } => begin(alloc, body.as_slice(), gate, next),
        // A first piece that ends the journal is told by no disk that tells.
        Step::End { gate } => Err(ReplayFault::NotAStore { at: gate }),
    }
}
