// Changes that locks and limits let through.
ghost use Rattle.std.specs.Prelude.{◌≡◌, ◌++◌, ◌∷◌, [], ℕ, List, Ok, Some, IfOk, IfErr, OnOk, if◌then◌else◌};
ghost use Rattle.wse_path.specs.Path.{Path};
ghost use Rattle.wse_path.specs.Tree.{Entries, HasRoom};
ghost use Rattle.wse_path.specs.Changes.{LeadToTree, erased_at, erased, stored_at, stored};
ghost use Rattle.wse_path.specs.declared.change.Change.{Change};
ghost use Rattle.wse_locks.specs.Locks.{is_held};
ghost use Rattle.wse_apply.specs.Limit.{limit_hit};
ghost use Rattle.wse_apply.specs.Stop.{held_among, stop_by, changed_to};
ghost use Rattle.wse_apply.specs.Sizes.{sizes_of};
ghost use Rattle.wse_apply.specs.Draft.{LeadTo, IsStopOf, LeavesUnlessMemory, AreSmall, FindRoom};

use crate::reason::Reason;
use crate::setting::Setting;
use crate::sizes::{Sizes, hit_after};
use crate::stop::Stop;
use std::alloc::Global;
use wse_overlay::Overlay;
use wse_path::{Change, Changes, Duplicate, Files, Items, Memory, RelPath, Tree};

/// Appends the path if another participant holds it.
fn note_held(
    alloc: Global,
    setting: &Setting<'_>,
    path: &RelPath,
    files: &mut Vec<RelPath>,
) -> Result<(), Memory>
    ensures { OnOk result (files.new.items
        ≡ files.old.items ++ (if is_held setting.now.locks setting.now.by path.now then path.now ∷ [] else [])) }
{
    if !setting.is_held(path) {
        return Ok(());
    }
    files.push(path.duplicate(alloc)?)?;
    Ok(())
}

/// The changed paths that another participant holds.
pub fn held_among(alloc: Global, setting: &Setting<'_>, changes: &[Change]) -> Result<Files, Memory>
    ensures { IfOk result (λ files. files ≡ held_among setting.now.locks setting.now.by changes.now) }
{
    let mut files = Vec::new(alloc);
    for change in changes {
        note_held(alloc, setting, &change.path, &mut files)?;
    }
    Ok(Items::new(files))
}

/// Why the changes, after which all files have that size, may not be made.
fn stop_by(
    alloc: Global,
    setting: &Setting<'_>,
    sizes: Sizes,
    changes: &[Change],
) -> Result<Option<Reason>, Memory>
    ensures { IfOk result (λ reason. reason ≡ stop_by setting.now sizes changes.now) }
{
    let files = held_among(alloc, setting, changes)?;
    if !files.is_empty() {
        return Ok(Some(Reason::Locked { files }));
    }
    match hit_after(&setting.limits(), sizes, changes) {
        Some(hit) => Ok(Some(Reason::Limit(hit))),
        None => Ok(None),
    }
}

/// Takes the path away, if the change does.
fn erase(alloc: Global, overlay: &mut Overlay<'_, Tree>, change: &Change) -> Result<(), Memory>
    ensures files { OnOk result (overlay.new.files ≡ erased_at change.now.path change.now.after overlay.old.files) }
    ensures base { overlay.new.base ≡ overlay.old.base }
{
    match &change.after {
        Some(_) => Ok(()),
        None => overlay.remove(alloc, &change.path),
    }
}

fn erase_all(
    alloc: Global,
    overlay: &mut Overlay<'_, Tree>,
    changes: &[Change],
) -> Result<(), Memory>
    ensures files { OnOk result (overlay.new.files ≡ erased changes.now overlay.old.files) }
    ensures base { overlay.new.base ≡ overlay.old.base }
{
    for change in changes {
        erase(alloc, overlay, change)?;
    }
    Ok(())
}

/// Puts the new content, if the change has one.
fn store(overlay: &mut Overlay<'_, Tree>, change: Change) -> Result<(), Memory>
    requires { (bytes : List ℕ) → change.after ≡ Some bytes → HasRoom overlay.old.files change.path }
    ensures files { OnOk result (overlay.new.files ≡ stored_at change.path change.after overlay.old.files) }
    ensures base { overlay.new.base ≡ overlay.old.base }
{
    let Change {
        path,
        before: _,
        after,
    } = change;
    match after {
        Some(bytes) => overlay.put(path, bytes),
        None => Ok(()),
    }
}

fn store_all(overlay: &mut Overlay<'_, Tree>, changes: Vec<Change>) -> Result<(), Memory>
    requires { FindRoom changes.items overlay.old.files }
    ensures files { OnOk result (overlay.new.files ≡ stored changes.items overlay.old.files) }
    ensures base { overlay.new.base ≡ overlay.old.base }
{
    for change in changes {
        store(overlay, change)?;
    }
    Ok(())
}

/// Makes the changes.
fn make(alloc: Global, overlay: &mut Overlay<'_, Tree>, changes: Changes) -> Result<(), Memory>
    requires { LeadToTree overlay.old.files changes }
    ensures files { OnOk result ((new : Entries) → LeadTo overlay.old.files changes new → overlay.new.files ≡ new) }
    ensures base { overlay.new.base ≡ overlay.old.base }
{
    erase_all(alloc, overlay, changes.as_slice())?;
    store_all(overlay, changes.into_vec())
}

/// Makes the changes, unless a lock or a limit stops them, and answers how large all files are then.
pub fn accept(
    alloc: Global,
    setting: &Setting<'_>,
    overlay: &mut Overlay<'_, Tree>,
    sizes: Sizes,
    changes: Changes,
) -> Result<Sizes, Stop>
    requires lead { LeadToTree overlay.old.files changes }
    requires small { AreSmall setting.now sizes overlay.old.files }
    ensures done { OnOk result ((new : Entries) → LeadTo overlay.old.files changes new → changed_to setting.now overlay.old.files new ≡ Ok overlay.new.files) }
    ensures small { IfOk result (λ after. AreSmall setting.now after overlay.new.files) }
    ensures refused { IfErr result (λ why. (new : Entries) → LeadTo overlay.old.files changes new → IsStopOf (changed_to setting.now overlay.old.files new) why) }
    ensures kept { IfErr result (LeavesUnlessMemory overlay.old.files overlay.new.files) }
    ensures base { overlay.new.base ≡ overlay.old.base }
{
    let after = sizes.changed(changes.as_slice());
    let stop = stop_by(alloc, setting, after, changes.as_slice())?;
    match stop {
        Some(reason) => return Err(Stop::Refused(reason)),
        None => (),
    }
    make(alloc, overlay, changes)?;
    Ok(after)
}
