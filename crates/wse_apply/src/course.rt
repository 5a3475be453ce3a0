// The operations of an edit, one after another.
ghost use Rattle.std.specs.Prelude.{◌≡◌, Ok, Some, None, IfOk, IfErr, OnOk};
ghost use Rattle.wse_apply.specs.Next.{done_next, next};
ghost use Rattle.wse_apply.specs.Course.{failure_of, reached};
ghost use Rattle.wse_apply.specs.Draft.{IsDraftOf, IsStopOf, IsFailureOf, LeavesUnlessMemory, AreSmall};

use crate::accept::accept;
use crate::reason::Reason;
use crate::resource::resource_changes;
use crate::setting::Setting;
use crate::sizes::Sizes;
use crate::stop::Stop;
use crate::text::text_changes;
use std::alloc::Global;
use wse_overlay::Overlay;
use wse_path::{Changes, Memory, Operation, Tree, What};

/// What the operation changes, unless something refuses it.
fn drafted(
    alloc: Global,
    setting: &Setting<'_>,
    overlay: &Overlay<'_, Tree>,
    what: &What,
) -> Result<Changes, Stop>
    ensures draft { IfOk result (IsDraftOf setting.now overlay.now.files (done_next setting.now overlay.now.files what.now)) }
    ensures refused { IfErr result (IsStopOf (done_next setting.now overlay.now.files what.now)) }
{
    match what {
        What::Text {
            path,
            version,
            edits,
        } => text_changes(alloc, setting, overlay, path, *version, edits.as_slice()),
        What::Resource(op) => resource_changes(alloc, setting, overlay, op),
    }
}

/// Does the operation, and answers how large all files are then.
fn step(
    alloc: Global,
    setting: &Setting<'_>,
    overlay: &mut Overlay<'_, Tree>,
    sizes: Sizes,
    operation: &Operation,
) -> Result<Sizes, Stop>
    requires { AreSmall setting.now sizes overlay.old.files }
    ensures done { OnOk result (next setting.now overlay.old.files operation.now ≡ Ok overlay.new.files) }
    ensures small { IfOk result (λ after. AreSmall setting.now after overlay.new.files) }
    ensures refused { IfErr result (IsStopOf (next setting.now overlay.old.files operation.now)) }
    ensures kept { IfErr result (LeavesUnlessMemory overlay.old.files overlay.new.files) }
    ensures base { overlay.new.base ≡ overlay.old.base }
{
    if operation.skipped {
        return Ok(sizes);
    }
    let changes = drafted(alloc, setting, &*overlay, &operation.what)?;
    accept(alloc, setting, overlay, sizes, changes)
}

/// The failure of the operation with that index.
pub fn failed_at(index: u64, stop: Stop) -> Result<Option<(u64, Reason)>, Memory>
    ensures { IfOk result (IsFailureOf stop index) }
{
    match stop {
        Stop::Refused(why) => Ok(Some((index, why))),
        Stop::Memory => Err(Memory),
    }
}

/// Does the operations one after another up to the first that fails. Answers which one does, and why.
pub fn run(
    alloc: Global,
    setting: &Setting<'_>,
    overlay: &mut Overlay<'_, Tree>,
    sizes: Sizes,
    operations: &[Operation],
) -> Result<Option<(u64, Reason)>, Memory>
    requires { AreSmall setting.now sizes overlay.old.files }
    ensures failed { IfOk result (λ failed. failed ≡ failure_of setting.now overlay.old.files operations.now) }
    ensures reached { OnOk result (overlay.new.files ≡ reached setting.now overlay.old.files operations.now) }
    ensures base { overlay.new.base ≡ overlay.old.base }
{
    let mut sizes = sizes;
    for (index, operation) in operations.iter().enumerate() {
        match step(alloc, setting, overlay, sizes, operation) {
            Ok(after) => sizes = after,
            Err(stop) => return failed_at(index as u64, stop),
        }
    }
    Ok(None)
}
