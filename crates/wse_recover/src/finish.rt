// Finishing a last record that isn't settled.
ghost use Rattle.std.specs.Prelude.{◌≡◌, IfOk};
ghost use Rattle.wse_element.specs.State.{State};
ghost use Rattle.wse_disk.specs.Told.{IsAtRest, reading_of};
ghost use Rattle.wse_txn.specs.Stands.{StandsFor};
ghost use Rattle.wse_txn.specs.Command.{IsAt};
ghost use Rattle.wse_txn.specs.Outcomes.{FailsByFault, KeepsMoments, Leaves, TellsAsBefore};
ghost use Rattle.wse_recover.specs.Finish.{IsUnfinished};

use wse_disk::Disk;
use wse_txn::{Idle, Sealed};

/// Makes the changes of the last record's plan and settles the record. It takes no memory, and fails only where the disk
/// failed, which is handed back. A crash at any moment leaves a disk that stands for the same state. This project's own rule.
pub fn finish<D: Disk>(sealed: Sealed<D>) -> Result<Idle<D>, D>
    ensures during { (s : State) → IsUnfinished s sealed.area sealed.gate sealed.plan (reading_of (D.told sealed.disk))
        → Leaves D.told (λ idle. idle.disk) sealed.disk result (StandsFor s) }
    ensures at { (s : State) → IsUnfinished s sealed.area sealed.gate sealed.plan (reading_of (D.told sealed.disk))
        → IfOk result (λ idle. IsAt s idle.area idle.gate (D.told idle.disk)) }
    ensures same { IfOk result (λ idle. (idle.area ≡ sealed.area) × (idle.gate ≡ sealed.gate)) }
    ensures rests { IfOk result (λ idle. IsAtRest (D.told idle.disk)) }
    ensures tells { IfOk result (λ idle. TellsAsBefore (D.told sealed.disk) (D.told idle.disk)) }
    ensures later { KeepsMoments D.moment_of (λ idle. idle.disk) sealed.disk result }
    ensures cause { FailsByFault D.faults (λ idle. idle.disk) sealed.disk result }
{
    match sealed.settle() {
        Ok(settled) => match settled.close() {
            Ok((idle, _)) => Ok(idle),
            Err(broken) => Err(broken.into_disk()),
        },
        Err(broken) => Err(broken.into_disk()),
    }
}
