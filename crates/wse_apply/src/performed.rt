// Whole edits.
ghost use Rattle.std.specs.Prelude.{◌≡◌, None, true, false, IfOk, if◌then◌else◌, []};
ghost use Rattle.wse_path.specs.Limits.{standard};
ghost use Rattle.wse_apply.specs.Limit.{limit_hit, are_within};
ghost use Rattle.wse_apply.specs.Performed.{performed};
ghost use Rattle.wse_apply.specs.Want.{fails_for_memory};

use crate::course::run;
use crate::kept::{bumps_by, rule_after};
use crate::reason::Reason;
use crate::setting::Setting;
use crate::sizes::Sizes;
use crate::skips::{Skips, skips_of};
use std::alloc::Global;
use wse_locks::Locks;
use wse_overlay::Overlay;
use wse_path::{Bumps, Changes, Edit, Items, Limits, Memory, Tree, Versions};

/// What an edit does.
#[derive(Drop)]
pub struct Performed {
    /// The paths whose content changes, in path order, with their old and new contents.
    pub changes: Changes,
    /// The paths whose version rises, in path order, with by how much.
    pub bumps: Bumps,
    /// The operation that fails, in the list as it was given, and why.
    pub failed: Option<(u64, Reason)>,
    /// What is left out because it waits for a confirmation.
    pub skipped: Skips,
}

/// The changes that stay.
fn kept(alloc: Global, keeps: bool, changes: Changes) -> Changes
    ensures { result ≡ (if keeps then changes else []) }
{
    if keeps {
        return changes;
    }
    Items::new(Vec::new(alloc))
}

/// Performs the edit over the tree, without changing it (LSP 3.17, "WorkspaceEdit"): its operations one after another, up
/// to the first that fails, and then what its failure kind says. It costs about what its operations change, times a
/// logarithm, however large the tree is. Each operation that edits a text reads and writes that whole text: many of them
/// on one file cost their number times its size, and edits of one operation cost the text once.
///
/// The order of reasons, versions, locks, limits and skipped operations are this project's own rules.
pub fn perform(
    alloc: Global,
    tree: &Tree,
    versions: &Versions,
    locks: &Locks,
    limits: &Limits,
    by: u32,
    edit: &Edit,
) -> Result<Performed, Memory>
    requires within { are_within limits.now standard ≡ true }
    requires fits { limit_hit limits.now tree.now.files ≡ None }
    ensures done { IfOk result (λ done. done
        ≡ performed tree.now.files versions.now.entries locks.now.entries limits.now by edit.now) }
    ensures reason { IfOk result (λ done. fails_for_memory done.failed ≡ false) }
{
    let setting = Setting::new(versions, locks, limits, by, edit.encoding);
    let operations = edit.operations.as_slice();
    let mut overlay = Overlay::new(alloc, tree);
    let failed = run(alloc, &setting, &mut overlay, Sizes::of(tree), operations)?;
    let rule = rule_after(&failed, edit.failure, operations);
    let changes = overlay.into_changes(alloc)?;
    let bumps = bumps_by(alloc, rule.rise, changes.as_slice())?;
    let skipped = skips_of(alloc, operations)?;
    Ok(Performed {
        changes: kept(alloc, rule.keeps, changes),
        bumps,
        failed,
        skipped,
    })
}
