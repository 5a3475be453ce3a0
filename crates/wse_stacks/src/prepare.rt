// Preparing a list of effects.
ghost use Rattle.std.specs.Prelude.{◌≡◌, ◌≢◌, [], IfOk, IfErr, OnOk};
ghost use Rattle.wse_element.specs.Applicable.{AreApplicable};
ghost use Rattle.wse_stacks.specs.Stacks.{IsHistory};
ghost use Rattle.wse_stacks.specs.Refused.{TellsRefused};
ghost use Rattle.wse_stacks.specs.Prepared.{IsPrepared};

use crate::draft::Draft;
use crate::prepared::{Prepared, try_each};
use crate::records::Records;
use crate::refused::ReserveRefused;
use crate::remembered::Remembered;
use crate::turned::{copies, turned};
use std::alloc::Global;
use wse_element::Effect;

/// What the effects leave, if each is applicable.
pub(crate) fn prepare(
    records: &Records,
    next_id: u64,
    serial: u64,
    alloc: Global,
    effects: &[Effect],
) -> Result<Prepared, ReserveRefused>
    requires history { IsHistory (record { records = records.now; next_id = next_id; serial = serial }) }
    requires some { effects.now ≢ [] }
    ensures effects { IfOk result (λ prepared. prepared.effects ≡ effects.now) }
    ensures prepared { IfOk result (IsPrepared (record { records = records.now; next_id = next_id; serial = serial })) }
    ensures applicable { OnOk result (AreApplicable (record { records = records.now; next_id = next_id; serial = serial }) effects.now) }
    ensures refused { IfErr result (TellsRefused (record { records = records.now; next_id = next_id; serial = serial }) effects.now) }
{
    let mut draft = Draft::begin(alloc, records, next_id, serial)?;
    if let Some(index) = try_each(&mut draft, alloc, effects)? {
        return Err(ReserveRefused::NotApplicable { index });
    }
    let noted = turned(records.as_slice(), draft.entries(), alloc, draft.touched())?;
    let turned = copies(alloc, noted.as_slice())?;
    let effects = Remembered::of(alloc, effects)?;
    let (records, next_id) = draft.finish();
    Ok(Prepared {
        effects,
        records,
        next_id,
        turned,
    })
}
