// The tree after a resource operation, built whole.
ghost use Rattle.std.specs.Prelude.{◌≡◌, ◌⊎◌, ◌&&◌, [], None, Ok, Err, true, false, if◌then◌else◌, IfOk, IfErr, OnOk};
ghost use Rattle.wse_path.specs.Tree.{file_above, put_file, HasRoom};
ghost use Rattle.wse_path.specs.declared.operation.ResourceOp.TheVariants.{Rename};
ghost use Rattle.wse_resource.specs.Table.{Outcome, outcome, is_within, moved, past_limit, unless_past_limit};
ghost use Rattle.wse_resource.specs.Table.Outcome.{Done, Refused};
ghost use Rattle.wse_resource.specs.After.{after_operation};
ghost use Rattle.wse_resource.specs.Course.{is_past_limit, limit_outcome};
ghost use Rattle.wse_resource.specs.Operated.{operated};

use crate::copies::without;
use crate::course::{Course, course_of};
use crate::moves::{is_within, moved_path};
use crate::refused::OpRefused;
use std::alloc::Global;
use wse_path::{Bytes, Duplicate, Memory, RelPath, ResourceOp, Tree, copy_bytes};

/// The tree after the operation, as it is defined: built whole, file by file.
pub fn operated_slowly(alloc: Global, tree: &Tree, op: &ResourceOp) -> Result<Tree, OpRefused>
    ensures tree { IfOk result (λ new. operated tree.now.files op.now ≡ Ok new.files) }
    ensures refused { IfErr result (λ why. (why ≡ OpRefused.Memory)
        ⊎ (operated tree.now.files op.now ≡ Err why)) }
{
    match course_of(alloc, tree, op)? {
        Course::Stays => Ok(tree.duplicate(alloc)?),
        Course::Goes => done_slowly(alloc, tree, op),
    }
}

/// The tree after an operation that only a limit may still refuse.
fn done_slowly(alloc: Global, tree: &Tree, op: &ResourceOp) -> Result<Tree, OpRefused>
    requires { outcome tree.now.files op.now ≡ limit_outcome tree.now.files op.now }
    ensures tree { IfOk result (λ new. new.files ≡ after_operation tree.now.files op.now) }
    ensures fits { OnOk result (limit_outcome tree.now.files op.now ≡ Done) }
    ensures refused { IfErr result (λ why. (why ≡ OpRefused.Memory)
        ⊎ (limit_outcome tree.now.files op.now ≡ Refused why)) }
{
    match op {
        ResourceOp::Create { path, .. } => Ok(with_empty(alloc, tree, path)?),
        ResourceOp::Rename { from, to, .. } => renamed_slowly(alloc, tree, from, to),
        ResourceOp::Delete { path, .. } => Ok(without(alloc, tree, path)?),
    }
}

/// The tree with an empty file at the path.
fn with_empty(alloc: Global, tree: &Tree, path: &RelPath) -> Result<Tree, Memory>
    requires { HasRoom tree.now.files path.now }
    ensures { IfOk result (λ new. new.files ≡ put_file tree.now.files path.now []) }
{
    let mut new = tree.duplicate(alloc)?;
    new.put(path.duplicate(alloc)?, Bytes::new(Vec::new(alloc)))?;
    Ok(new)
}

/// The files that stay, and then the moved ones, one after another.
fn renamed_slowly(
    alloc: Global,
    tree: &Tree,
    from: &RelPath,
    to: &RelPath,
) -> Result<Tree, OpRefused>
    requires { file_above tree.now.files to.now ≡ None }
    ensures tree { IfOk result (λ new. new.files ≡ after_operation tree.now.files (Rename from.now to.now true true)) }
    ensures fits { OnOk result (unless_past_limit (past_limit tree.now.files from.now to.now) ≡ Done) }
    ensures refused { IfErr result (λ why. (why ≡ OpRefused.Memory)
        ⊎ (unless_past_limit (past_limit tree.now.files from.now to.now) ≡ Refused why)) }
{
    let apart = without(alloc, tree, from)?;
    let mut new = without(alloc, &apart, to)?;
    for index in 0..tree.count() {
        let (file, bytes) = tree.file_at(index);
        put_moved_within(alloc, &mut new, file, bytes, from, to)?;
    }
    Ok(new)
}

/// Puts the file where it goes when `from` becomes `to`, if it is at or under `from`.
fn put_moved_within(
    alloc: Global,
    tree: &mut Tree,
    file: &RelPath,
    bytes: &[u8],
    from: &RelPath,
    to: &RelPath,
) -> Result<(), OpRefused>
    requires { is_within file.now from.now ≡ true → HasRoom tree.old.files (moved from.now to.now file.now) }
    ensures files { OnOk result (tree.new.files
        ≡ (if is_within file.now from.now
        then put_file tree.old.files (moved from.now to.now file.now) bytes.now
        else tree.old.files)) }
    ensures fits { OnOk result
        ((is_within file.now from.now && is_past_limit from.now to.now file.now) ≡ false) }
    ensures refused { IfErr result (λ why. (why ≡ OpRefused.Memory)
        ⊎ (((is_within file.now from.now && is_past_limit from.now to.now file.now) ≡ true)
        × (why ≡ OpRefused.PathLimit file.now))) }
{
    if !is_within(file, from) {
        return Ok(());
    }
    let there = moved_path(alloc, from, to, file)?;
    tree.put(there, copy_bytes(alloc, bytes)?)?;
    Ok(())
}
