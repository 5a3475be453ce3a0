// The beginning of opening: the journal of a synced disk.
ghost use Rattle.std.specs.Prelude.{◌≡◌, ◌≤◌, ◌<◌, ◌^◌, IfOk, IfErr, OnOk, IsErrOf};
ghost use Rattle.wse_path.specs.Causes.{Rose};
ghost use Rattle.wse_disk.specs.Told.{IsSynced};
ghost use Rattle.wse_recover.specs.declared.fault.ReplayFault.TheVariants.{Disk};
ghost use Rattle.wse_recover.specs.Held.{held, AreNumbersBounded};
ghost use Rattle.wse_recover.specs.Unsettled.{MayBeFinished};
ghost use Rattle.wse_recover.specs.Untouched.{IsUntouched};
ghost use Rattle.wse_recover.specs.Opening.{HasJournal, TellsNoStore};

use crate::fault::ReplayFault;
use crate::read::{Journal, read_journal};
use std::alloc::Global;
use wse_disk::Disk;

/// Makes all writes so far last, and reads the journal that the switch chooses. It writes nothing.
pub(crate) fn read_synced<D: Disk>(alloc: Global, disk: &mut D) -> Result<Journal, ReplayFault>
    ensures journal { IfOk result (HasJournal (D.told disk.new)) }
    ensures bounded { IfOk result (λ journal. AreNumbersBounded (held journal.stacks journal.versions)) }
    ensures behind { IfOk result (λ journal. 0 < journal.gate) }
    ensures small { IfOk result (λ journal. journal.gate < 2 ^ 63) }
    ensures come { IfOk result (λ journal. MayBeFinished journal.last) }
    ensures synced { OnOk result (IsSynced (D.told disk.new)) }
    ensures refused { IfErr result (TellsNoStore (D.told disk.old)) }
    ensures untouched { IsUntouched (D.told disk.old) (D.told disk.new) }
    ensures later { D.moment_of disk.old ≤ D.moment_of disk.new }
    ensures count { D.faults disk.old ≤ D.faults disk.new }
    ensures failed { IsErrOf result Disk → Rose (D.faults disk.old) (D.faults disk.new) }
    ensures kept { (IsErrOf result Disk → ⊥) → D.faults disk.new ≡ D.faults disk.old }
{
    disk.sync()?;
    read_journal(alloc, disk)
}
