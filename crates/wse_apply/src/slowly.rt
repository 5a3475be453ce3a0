// Whole edits as they are defined: a list of whole trees, and no overlay.
ghost use Rattle.std.specs.Prelude.{◌≡◌, None, Ok, Some, IfOk, IfErr, OnOk};
ghost use Rattle.wse_path.specs.Tree.{put_file, HasRoom};
ghost use Rattle.wse_path.specs.Changes.{changes_between};
ghost use Rattle.wse_edits.specs.Edited.{edited};
ghost use Rattle.wse_edits.specs.Refusal.{refusal};
ghost use Rattle.wse_apply.specs.Course.{failure_of, reached};
ghost use Rattle.wse_apply.specs.Draft.{IsFailureOf, IsStopOf, TellsReason};
ghost use Rattle.wse_apply.specs.Kept.{kept};
ghost use Rattle.wse_apply.specs.Next.{done_next, edits_reason, next, resource_next, text_next, text_refusal};
ghost use Rattle.wse_apply.specs.Performed.{performed};
ghost use Rattle.wse_apply.specs.Stop.{changed_to, stop};

use crate::accept::held_among;
use crate::course::failed_at;
use crate::difference::difference;
use crate::kept::{Rule, bumps_by, rule_after};
use crate::limits::limit_hit;
use crate::performed::Performed;
use crate::reason::Reason;
use crate::resource::stop_for;
use crate::setting::Setting;
use crate::skips::skips_of;
use crate::stop::Stop;
use crate::text::{check_version, splices_of};
use std::alloc::Global;
use wse_edits::edited_slowly;
use wse_locks::Locks;
use wse_path::{
    Bytes, Changes, Duplicate, Edit, Encoding, Limits, Memory, Operation, RelPath, ResourceOp,
    TextEdit, Tree, Versions, What,
};
use wse_resource::{OpRefused, operated_slowly};
use wse_text::as_text;

/// Performs the edit as it is defined: each operation makes a whole new tree, and trees are compared path by path. For
/// small trees, beside which `perform` can be laid.
pub fn performed_slowly(
    alloc: Global,
    tree: &Tree,
    versions: &Versions,
    locks: &Locks,
    limits: &Limits,
    by: u32,
    edit: &Edit,
) -> Result<Performed, Memory>
    ensures { IfOk result (λ done. done
        ≡ performed tree.now.files versions.now.entries locks.now.entries limits.now by edit.now) }
{
    let setting = Setting::new(versions, locks, limits, by, edit.encoding);
    let operations = edit.operations.as_slice();
    let end = run_slowly(alloc, &setting, tree, operations)?;
    let rule = rule_after(&end.failed, edit.failure, operations);
    let reached = difference(alloc, tree, &end.tree)?;
    Ok(Performed {
        changes: kept_slowly(alloc, rule, tree, &end.tree)?,
        bumps: bumps_by(alloc, rule.rise, reached.as_slice())?,
        failed: end.failed,
        skipped: skips_of(alloc, operations)?,
    })
}

/// What differs in the tree that is kept.
fn kept_slowly(alloc: Global, rule: Rule, before: &Tree, reached: &Tree) -> Result<Changes, Memory>
    ensures { IfOk result (λ changes. changes
        ≡ changes_between before.now.files (kept rule before.now.files reached.now.files)) }
{
    if rule.keeps {
        return difference(alloc, before, reached);
    }
    difference(alloc, before, before)
}

/// The tree that operations reach, and the one of them that fails.
#[derive(Drop)]
struct End {
    tree: Tree,
    failed: Option<(u64, Reason)>,
}

/// Does the operations one after another up to the first that fails.
fn run_slowly(
    alloc: Global,
    setting: &Setting<'_>,
    tree: &Tree,
    operations: &[Operation],
) -> Result<End, Memory>
    ensures reached { IfOk result (λ end. end.tree.files ≡ reached setting.now tree.now.files operations.now) }
    ensures failed { IfOk result (λ end. end.failed ≡ failure_of setting.now tree.now.files operations.now) }
{
    let mut current = tree.duplicate(alloc)?;
    for (index, operation) in operations.iter().enumerate() {
        match next_slowly(alloc, setting, &current, operation) {
            Ok(new) => current = new,
            Err(stop) => return end_at(current, index as u64, stop),
        }
    }
    Ok(End {
        tree: current,
        failed: None,
    })
}

/// The end at an operation that is refused.
fn end_at(tree: Tree, index: u64, stop: Stop) -> Result<End, Memory>
    ensures tree { IfOk result (λ end. end.tree.files ≡ tree.files) }
    ensures failed { IfOk result (λ end. IsFailureOf stop index end.failed) }
{
    Ok(End {
        tree,
        failed: failed_at(index, stop)?,
    })
}

/// The tree after the operation.
fn next_slowly(
    alloc: Global,
    setting: &Setting<'_>,
    tree: &Tree,
    operation: &Operation,
) -> Result<Tree, Stop>
    ensures done { IfOk result (λ new. next setting.now tree.now.files operation.now ≡ Ok new.files) }
    ensures refused { IfErr result (IsStopOf (next setting.now tree.now.files operation.now)) }
{
    if operation.skipped {
        return Ok(tree.duplicate(alloc)?);
    }
    done_slowly(alloc, setting, tree, &operation.what)
}

fn done_slowly(alloc: Global, setting: &Setting<'_>, tree: &Tree, what: &What) -> Result<Tree, Stop>
    ensures done { IfOk result (λ new. done_next setting.now tree.now.files what.now ≡ Ok new.files) }
    ensures refused { IfErr result (IsStopOf (done_next setting.now tree.now.files what.now)) }
{
    match what {
        What::Text {
            path,
            version,
            edits,
        } => text_slowly(alloc, setting, tree, path, *version, edits.as_slice()),
        What::Resource(op) => resource_slowly(alloc, setting, tree, op),
    }
}

/// The tree after a resource operation.
fn resource_slowly(
    alloc: Global,
    setting: &Setting<'_>,
    tree: &Tree,
    op: &ResourceOp,
) -> Result<Tree, Stop>
    ensures done { IfOk result (λ new. resource_next setting.now tree.now.files op.now ≡ Ok new.files) }
    ensures refused { IfErr result (IsStopOf (resource_next setting.now tree.now.files op.now)) }
{
    match operated_slowly(alloc, tree, op) {
        Ok(new) => unless_stopped(alloc, setting, tree, new),
        Err(why) => Err(stop_for(why)),
    }
}

/// The tree after edits of a text.
fn text_slowly(
    alloc: Global,
    setting: &Setting<'_>,
    tree: &Tree,
    path: &RelPath,
    version: Option<i64>,
    edits: &[TextEdit],
) -> Result<Tree, Stop>
    ensures done { IfOk result (λ new. text_next setting.now tree.now.files path.now version edits.now ≡ Ok new.files) }
    ensures refused { IfErr result (IsStopOf (text_next setting.now tree.now.files path.now version edits.now)) }
{
    if tree.is_folder(path) {
        return Err(Stop::Refused(Reason::Op(OpRefused::IsFolder)));
    }
    match tree.get(path) {
        Some(bytes) => {
            let after = text_after(alloc, setting, path, version, edits, bytes)?;
            let new = with_content(alloc, tree, path, after)?;
            unless_stopped(alloc, setting, tree, new)
        }
        None => Err(Stop::Refused(Reason::Op(OpRefused::NotFound))),
    }
}

/// The text after the edits, unless something is said against them.
fn text_after(
    alloc: Global,
    setting: &Setting<'_>,
    path: &RelPath,
    version: Option<i64>,
    edits: &[TextEdit],
    bytes: &[u8],
) -> Result<Bytes, Stop>
    ensures after { IfOk result (λ after. after ≡ edited bytes.now setting.now.encoding edits.now) }
    ensures ok { OnOk result (text_refusal setting.now path.now version edits.now bytes.now ≡ None) }
    ensures refused { IfErr result (TellsReason (text_refusal setting.now path.now version edits.now bytes.now)) }
{
    check_version(version, setting.version(path))?;
    match as_text(bytes) {
        Ok(text) => edited_unless_refused(alloc, text, setting.encoding(), edits),
        Err(why) => Err(Stop::Refused(Reason::NotText { at: why.at })),
    }
}

fn edited_unless_refused(
    alloc: Global,
    text: &str,
    enc: Encoding,
    edits: &[TextEdit],
) -> Result<Bytes, Stop>
    ensures after { IfOk result (λ after. after ≡ edited text.now enc edits.now) }
    ensures ok { OnOk result (edits_reason (refusal text.now enc edits.now) ≡ None) }
    ensures refused { IfErr result (TellsReason (edits_reason (refusal text.now enc edits.now))) }
{
    let _splices = splices_of(alloc, text, enc, edits)?;
    Ok(edited_slowly(alloc, text, enc, edits)?)
}

/// The tree with these bytes in place of the file's.
fn with_content(alloc: Global, tree: &Tree, path: &RelPath, bytes: Bytes) -> Result<Tree, Memory>
    requires { HasRoom tree.now.files path.now }
    ensures { IfOk result (λ new. new.files ≡ put_file tree.now.files path.now bytes) }
{
    let mut new = tree.duplicate(alloc)?;
    new.put(path.duplicate(alloc)?, bytes)?;
    Ok(new)
}

/// Why the tree may not become the new one.
fn stop_slowly(
    alloc: Global,
    setting: &Setting<'_>,
    old: &Tree,
    new: &Tree,
) -> Result<Option<Reason>, Memory>
    ensures { IfOk result (λ reason. reason ≡ stop setting.now old.now.files new.now.files) }
{
    let changes = difference(alloc, old, new)?;
    let files = held_among(alloc, setting, changes.as_slice())?;
    if !files.is_empty() {
        return Ok(Some(Reason::Locked { files }));
    }
    match limit_hit(&setting.limits(), new) {
        Some(hit) => Ok(Some(Reason::Limit(hit))),
        None => Ok(None),
    }
}

/// The new tree, unless locks or limits keep the old one from becoming it.
fn unless_stopped(alloc: Global, setting: &Setting<'_>, old: &Tree, new: Tree) -> Result<Tree, Stop>
    ensures done { IfOk result (λ tree. changed_to setting.now old.now.files new.files ≡ Ok tree.files) }
    ensures refused { IfErr result (IsStopOf (changed_to setting.now old.now.files new.files)) }
{
    match stop_slowly(alloc, setting, old, &new)? {
        Some(reason) => Err(Stop::Refused(reason)),
        None => Ok(new),
    }
}
