// Files taken away and put over others.
ghost use Rattle.std.specs.Prelude.{◌≡◌, ◌⊎◌, ◌++◌, [], ◌∷◌, None, true, IfOk, IfErr, OnOk};
ghost use Rattle.wse_path.specs.Tree.{put_all, file_above, IsTree};
ghost use Rattle.wse_path.specs.declared.operation.ResourceOp.TheVariants.{Rename};
ghost use Rattle.wse_resource.specs.Table.{files_within, past_limit, unless_past_limit};
ghost use Rattle.wse_resource.specs.Table.Outcome.{Done, Refused};
ghost use Rattle.wse_resource.specs.After.{removed_each, without, moved_files, after_operation};
ghost use Rattle.wse_resource.specs.Course.{is_past_limit};

use crate::moves::{moved_path, paths_within};
use crate::refused::OpRefused;
use std::alloc::Global;
use wse_overlay::{Contents, Overlay};
use wse_path::{Bytes, Memory, RelPath, copy_bytes};

/// Takes each of the paths away.
fn remove_all<C: Contents>(
    alloc: Global,
    overlay: &mut Overlay<'_, C>,
    paths: &[RelPath],
) -> Result<(), Memory>
    ensures files { OnOk result (overlay.new.files ≡ removed_each paths.now overlay.old.files) }
    ensures base { overlay.new.base ≡ overlay.old.base }
{
    for path in paths {
        overlay.remove(alloc, path)?;
    }
    Ok(())
}

/// Takes all at and under the path away.
pub fn remove_within<C: Contents>(
    alloc: Global,
    overlay: &mut Overlay<'_, C>,
    path: &RelPath,
) -> Result<(), Memory>
    ensures files { OnOk result (overlay.new.files ≡ without overlay.old.files path.now) }
    ensures base { overlay.new.base ≡ overlay.old.base }
{
    let paths = paths_within(alloc, &*overlay, path)?;
    remove_all(alloc, overlay, paths.as_slice())
}

/// Puts each of the files.
fn put_all<C: Contents>(
    overlay: &mut Overlay<'_, C>,
    files: Vec<(RelPath, Bytes)>,
) -> Result<(), Memory>
    requires { IsTree (put_all files.items overlay.old.files) }
    ensures files { OnOk result (overlay.new.files ≡ put_all files.items overlay.old.files) }
    ensures base { overlay.new.base ≡ overlay.old.base }
{
    for (path, bytes) in files {
        overlay.put(path, bytes)?;
    }
    Ok(())
}

/// A copy of each file at and under `from`, where it goes when `from` becomes `to`.
fn moved_files<C: Contents>(
    alloc: Global,
    overlay: &Overlay<'_, C>,
    from: &RelPath,
    to: &RelPath,
) -> Result<Vec<(RelPath, Bytes)>, OpRefused>
    ensures files { IfOk result (λ moved. moved.items ≡ moved_files overlay.now.files from.now to.now) }
    ensures fits { OnOk result (unless_past_limit (past_limit overlay.now.files from.now to.now) ≡ Done) }
    ensures refused { IfErr result (λ why. (why ≡ OpRefused.Memory)
        ⊎ (unless_past_limit (past_limit overlay.now.files from.now to.now) ≡ Refused why)) }
{
    let sources = paths_within(alloc, overlay, from)?;
    let mut moved = Vec::new(alloc);
    for source in sources.as_slice() {
        let target = moved_path(alloc, from, to, source)?;
        push_copy(alloc, &mut moved, target, overlay.get(source).unwrap())?;
    }
    Ok(moved)
}

/// Appends a file with a copy of the bytes.
fn push_copy(
    alloc: Global,
    files: &mut Vec<(RelPath, Bytes)>,
    path: RelPath,
    bytes: &[u8],
) -> Result<(), Memory>
    ensures { OnOk result (files.new.items ≡ files.old.items ++ (path, bytes.now) ∷ []) }
{
    files.push((path, copy_bytes(alloc, bytes)?))?;
    Ok(())
}

/// Moves all at and under `from` to `to`, where nothing is left of what was there. All limits are tried before anything
/// is changed.
pub fn rename<C: Contents>(
    alloc: Global,
    overlay: &mut Overlay<'_, C>,
    from: &RelPath,
    to: &RelPath,
) -> Result<(), OpRefused>
    requires { file_above overlay.old.files to.now ≡ None }
    ensures done { OnOk result (overlay.new.files ≡ after_operation overlay.old.files (Rename from.now to.now true true)) }
    ensures fits { OnOk result (unless_past_limit (past_limit overlay.old.files from.now to.now) ≡ Done) }
    ensures refused { IfErr result (λ why. (why ≡ OpRefused.Memory)
        ⊎ ((unless_past_limit (past_limit overlay.old.files from.now to.now) ≡ Refused why)
        × (overlay.new.files ≡ overlay.old.files))) }
    ensures base { overlay.new.base ≡ overlay.old.base }
{
    let moved = moved_files(alloc, &*overlay, from, to)?;
    remove_within(alloc, overlay, from)?;
    remove_within(alloc, overlay, to)?;
    put_all(overlay, moved)?;
    Ok(())
}
