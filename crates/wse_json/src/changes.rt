// The operations of a workspace edit.
ghost use Rattle.std.specs.Prelude.{[], codes};
ghost use Rattle.std.specs.BTreeSet.{contains_text};
ghost use Rattle.serde_json.specs.View.{view, items_view, members_view};
ghost use Rattle.wse_uri.specs.FileUrl.{IsPlainFileUrl};
ghost use Rattle.serde_json.specs.Find.{as_object};
ghost use Rattle.wse_json.specs.Commands.{workspace_edit_of};
ghost use Rattle.wse_json.specs.Kinds.{within_or};
ghost use Rattle.wse_json.specs.Members.{is_among};
ghost use Rattle.wse_json.specs.Noted.{waits_by};
ghost use Rattle.wse_json.specs.Operations.{document_changes_of, entry_of, changes_of, operations_in};
ghost use Rattle.wse_json.specs.Shapes.{Gives};

use crate::members::optional;
use crate::notes::{Notes, check_annotations_in, set_of};
use crate::operations::operation_of;
use crate::paths::path_named;
use crate::pointer::{field, under, under_item, wrong};
use crate::shape::Shape;
use crate::text_edits::text_edits_of;
use serde_json::{Map, Value};
use std::alloc::Global;
use std::collections::BTreeSet;
use url::Url;
use wse_path::{Items, Operation, Operations, Text, What};

fn document_changes_of(
    alloc: Global,
    root: &Url,
    notes: &Notes,
    items: &[Value],
) -> Result<Operations, Shape>
    requires { IsPlainFileUrl root.now }
    ensures { Gives (document_changes_of root.now (waits_by notes.now) (items_view items.now)) result }
{
    let mut all = Vec::new(alloc);
    for (index, item) in items.iter().enumerate() {
        match operation_of(alloc, root, notes, item) {
            Ok(operation) => all.push(operation)?,
            Err(why) => return Err(under_item(alloc, index, why)),
        }
    }
    Ok(Items::new(all))
}

/// The operation that an entry of `changes` is: edits of the file that its name names.
#[tactic(auto, unfolding(crate::specs::Operations::entry_of))]
fn entry_of(
    alloc: Global,
    root: &Url,
    notes: &Notes,
    name: &str,
    edits: &Value,
) -> Result<Operation, Shape>
    requires { IsPlainFileUrl root.now }
    ensures { Gives (entry_of root.now (waits_by notes.now) name.now (view edits.now)) result }
{
    let path = path_named(alloc, root, name)?;
    let Some(edits) = edits.as_array() else {
        return Err(wrong(alloc));
    };
    let edits = text_edits_of(alloc, notes, edits)?;
    Ok(Operation {
        what: What::Text {
            path,
            version: None,
            edits,
        },
        skipped: false,
    })
}

/// The operations that the entries of `changes` are, in byte order of their names.
fn changes_of(
    alloc: Global,
    root: &Url,
    notes: &Notes,
    changes: &Map<String, Value>,
) -> Result<Operations, Shape>
    requires { IsPlainFileUrl root.now }
    ensures { Gives (changes_of root.now (waits_by notes.now) (members_view changes.now.entries)) result }
{
    let mut all = Vec::new(alloc);
    for (name, edits) in changes {
        match entry_of(alloc, root, notes, name.as_str(), edits) {
            Ok(operation) => all.push(operation)?,
            Err(why) => return Err(under(alloc, name.as_str(), why)),
        }
    }
    Ok(Items::new(all))
}

fn changes_in(alloc: Global, root: &Url, notes: &Notes, edit: &Value) -> Result<Operations, Shape>
    requires { IsPlainFileUrl root.now }
    ensures { Gives (within_or (codes "changes") as_object (changes_of root.now (waits_by notes.now)) [] (view edit.now)) result }
{
    let Some(changes) = optional(edit, "changes") else {
        return Ok(Items::new(Vec::new(alloc)));
    };
    let Some(changes) = changes.as_object() else {
        return Err(field(alloc, "changes"));
    };
    match changes_of(alloc, root, notes, changes) {
        Ok(operations) => Ok(operations),
        Err(why) => Err(under(alloc, "changes", why)),
    }
}

/// The operations of an edit: `documentChanges`, and only where it is missing `changes`.
#[tactic(auto, unfolding(crate::specs::Operations::operations_in))]
fn operations_in(
    alloc: Global,
    root: &Url,
    notes: &Notes,
    edit: &Value,
) -> Result<Operations, Shape>
    requires { IsPlainFileUrl root.now }
    ensures { Gives (operations_in root.now (waits_by notes.now) (view edit.now)) result }
{
    let Some(listed) = optional(edit, "documentChanges") else {
        return changes_in(alloc, root, notes, edit);
    };
    let Some(items) = listed.as_array() else {
        return Err(field(alloc, "documentChanges"));
    };
    match document_changes_of(alloc, root, notes, items) {
        Ok(operations) => Ok(operations),
        Err(why) => Err(under(alloc, "documentChanges", why)),
    }
}

/// The operations of a workspace edit, behind the checks of its annotations.
#[tactic(auto, unfolding(crate::specs::Commands::workspace_edit_of))]
fn checked_operations(
    alloc: Global,
    root: &Url,
    confirmed: &BTreeSet<String>,
    edit: &Value,
) -> Result<Operations, Shape>
    requires { IsPlainFileUrl root.now }
    ensures { Gives (workspace_edit_of root.now (contains_text confirmed.now) (view edit.now)) result }
{
    check_annotations_in(alloc, edit)?;
    let notes = Notes {
        annotations: optional(edit, "changeAnnotations"),
        confirmed,
    };
    operations_in(alloc, root, &notes, edit)
}

/// The operations of a workspace edit, of whose annotations those with these ids are confirmed.
pub fn workspace_edit_of(
    alloc: Global,
    root: &Url,
    confirmed: &Items<Text>,
    edit: &Value,
) -> Result<Operations, Shape>
    requires { IsPlainFileUrl root.now }
    ensures { Gives (workspace_edit_of root.now (is_among confirmed.now) (view edit.now)) result }
{
    let confirmed = set_of(alloc, confirmed.as_slice())?;
    checked_operations(alloc, root, &confirmed, edit)
}
