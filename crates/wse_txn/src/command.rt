// One command, written whole.
ghost use Rattle.std.specs.Prelude.{◌≡◌, IfOk};
ghost use Rattle.wse_element.specs.State.{State};
ghost use Rattle.wse_element.specs.Effects.{state_after};
ghost use Rattle.wse_disk.specs.Told.{IsAtRest};
ghost use Rattle.wse_txn.specs.Outcomes.{FailsByFault, KeepsMoments, Leaves, TellsAsBefore};
ghost use Rattle.wse_codec.specs.Comes.{MayCome};
ghost use Rattle.wse_txn.specs.Command.{IsAt, StandsForOneOf};

use crate::drafted::Drafted;
use crate::idle::Idle;
use wse_disk::Disk;
use wse_element::Plan;

/// Writes the plan's record, makes its changes and settles the record, and hands the plan back. It takes no memory, and fails
/// only where the disk failed, which is handed back.
///
/// Where the disk stood for a state in which the plan may come, it stands for the state after the plan then. A crash at any
/// moment leaves a disk that stands for the one or for the other, where the disk fails too. This project's own rule.
pub fn write<D: Disk>(drafted: Drafted<D>) -> Result<(Idle<D>, Plan), D>
    ensures during { (s : State) → IsAt s drafted.area drafted.gate (D.told drafted.disk) → MayCome s drafted.plan
        → Leaves D.told (λ done. done.0.disk) drafted.disk result (StandsForOneOf s (state_after s drafted.plan.effects)) }
    ensures stands { (s : State) → IsAt s drafted.area drafted.gate (D.told drafted.disk) → MayCome s drafted.plan
        → IfOk result (λ done. IsAt (state_after s drafted.plan.effects) done.0.area done.0.gate (D.told done.0.disk)) }
    ensures rests { IfOk result (λ done. IsAtRest (D.told done.0.disk)) }
    ensures tells { IfOk result (λ done. TellsAsBefore (D.told drafted.disk) (D.told done.0.disk)) }
    ensures plan { IfOk result (λ done. done.1 ≡ drafted.plan) }
    ensures later { KeepsMoments D.moment_of (λ done. done.0.disk) drafted.disk result }
    ensures cause { FailsByFault D.faults (λ done. done.0.disk) drafted.disk result }
{
    match drafted.seal() {
        Ok(sealed) => match sealed.settle() {
            Ok(settled) => match settled.close() {
                Ok(closed) => Ok(closed),
                Err(broken) => Err(broken.into_disk()),
            },
            Err(broken) => Err(broken.into_disk()),
        },
        Err(broken) => Err(broken.into_disk()),
    }
}
