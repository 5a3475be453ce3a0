// What a resource operation changes.
ghost use Rattle.std.specs.Prelude.{◌≡◌, ◌⊎◌, Ok, Err, IfOk, IfErr, OnOk};
ghost use Rattle.wse_resource.specs.Table.{outcome};
ghost use Rattle.wse_resource.specs.Table.Outcome.{Done, Refused};
ghost use Rattle.wse_resource.specs.After.{after_operation};
ghost use Rattle.wse_resource.specs.Course.{limit_outcome};
ghost use Rattle.wse_resource.specs.Operated.{operated, changed, LeavesTree};

use crate::course::{Course, course_of};
use crate::over::{remove_within, rename};
use crate::refused::OpRefused;
use std::alloc::Global;
use wse_overlay::{Contents, Overlay};
use wse_path::{Bytes, Changes, Duplicate, ResourceOp, Tree};

/// Does the operation over files with changes (LSP 3.17, "Resource changes"; the order of the refusals is this project's
/// own rule). After a refusal all is as it was, but after Memory some of the operation may be done. It costs about what
/// is at and under its paths, times a logarithm; the bytes of moved files alone are copied.
pub fn operate_on<C: Contents>(
    alloc: Global,
    overlay: &mut Overlay<'_, C>,
    op: &ResourceOp,
) -> Result<(), OpRefused>
    ensures done { OnOk result (operated overlay.old.files op.now ≡ Ok overlay.new.files) }
    ensures refused { IfErr result (λ why. (why ≡ OpRefused.Memory)
        ⊎ ((operated overlay.old.files op.now ≡ Err why) × (overlay.new.files ≡ overlay.old.files))) }
    ensures base { overlay.new.base ≡ overlay.old.base }
    ensures tree { OnOk result (LeavesTree overlay.old.files op.now) }
{
    match course_of(alloc, &*overlay, op)? {
        Course::Stays => Ok(()),
        Course::Goes => done_on(alloc, overlay, op),
    }
}

/// Does an operation that only a limit may still refuse.
fn done_on<C: Contents>(
    alloc: Global,
    overlay: &mut Overlay<'_, C>,
    op: &ResourceOp,
) -> Result<(), OpRefused>
    requires { outcome overlay.old.files op.now ≡ limit_outcome overlay.old.files op.now }
    ensures done { OnOk result (overlay.new.files ≡ after_operation overlay.old.files op.now) }
    ensures fits { OnOk result (limit_outcome overlay.old.files op.now ≡ Done) }
    ensures refused { IfErr result (λ why. (why ≡ OpRefused.Memory)
        ⊎ ((limit_outcome overlay.old.files op.now ≡ Refused why) × (overlay.new.files ≡ overlay.old.files))) }
    ensures base { overlay.new.base ≡ overlay.old.base }
{
    match op {
        ResourceOp::Create { path, .. } => {
            let empty = Bytes::new(Vec::new(alloc));
            overlay.put(path.duplicate(alloc)?, empty)?;
            Ok(())
        }
        ResourceOp::Rename { from, to, .. } => rename(alloc, overlay, from, to),
        ResourceOp::Delete { path, .. } => {
            remove_within(alloc, overlay, path)?;
            Ok(())
        }
    }
}

/// What the operation changes in the tree: each path whose content changes, in path order, with its old and its new
/// content (LSP 3.17, "Resource changes"; the order of the refusals is this project's own rule). It costs about what is
/// at and under its paths, times a logarithm.
pub fn operate(alloc: Global, tree: &Tree, op: &ResourceOp) -> Result<Changes, OpRefused>
    ensures changes { IfOk result (λ changes. changed tree.now.files op.now ≡ Ok changes) }
    ensures refused { IfErr result (λ why. (why ≡ OpRefused.Memory)
        ⊎ (operated tree.now.files op.now ≡ Err why)) }
    ensures tree { IfOk result (λ _. LeavesTree tree.now.files op.now) }
{
    let mut overlay = Overlay::new(alloc, tree);
    operate_on(alloc, &mut overlay, op)?;
    Ok(overlay.into_changes(alloc)?)
}
