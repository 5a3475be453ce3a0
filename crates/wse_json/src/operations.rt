// Operations of an edit.
ghost use Rattle.std.specs.Prelude.{◌≡◌, codes, false};
ghost use Rattle.serde_json.specs.Find.{as_array};
ghost use Rattle.serde_json.specs.View.{view, items_view, members_view};
ghost use Rattle.wse_uri.specs.FileUrl.{IsPlainFileUrl};
ghost use Rattle.wse_json.specs.Kinds.{an_object, one_of, standard, perhaps, within};
ghost use Rattle.wse_json.specs.Noted.{waits_by};
ghost use Rattle.wse_json.specs.Operations.{flags_of, options_in, create_of, rename_of, delete_of, a_version, document_of, text_change_of, kind_names, operation_by, operation_of};
ghost use Rattle.wse_json.specs.Shapes.{Gives};
ghost use Rattle.wse_json.specs.TextEdits.{text_edits_of};

use crate::kinds::{Member, flag_at, list_at, member_or, object_at};
use crate::members::optional;
use crate::notes::Notes;
use crate::paths::path_at;
use crate::pointer::{field, under, wrong};
use crate::shape::Shape;
use crate::text_edits::text_edits_of;
use serde_json::Value;
use std::alloc::Global;
use url::Url;
use wse_path::{Edits, Operation, RelPath, ResourceOp, What};

fn flags_of(
    alloc: Global,
    options: &Value,
    first: &str,
    second: &str,
) -> Result<(bool, bool), Shape>
    ensures { Gives (flags_of first.now second.now (view options.now)) result }
{
    let one = flag_at(alloc, options, first)?;
    let other = flag_at(alloc, options, second)?;
    Ok((one, other))
}

/// The two options of a resource operation.
#[tactic(auto, unfolding(crate::specs::Operations::options_in))]
fn options_in(alloc: Global, item: &Value, first: &str, second: &str) -> Result<(bool, bool), Shape>
    ensures { Gives (options_in first.now second.now (view item.now)) result }
{
    let Some(options) = optional(item, "options") else {
        return Ok((false, false));
    };
    if !options.is_object() {
        return Err(field(alloc, "options"));
    }
    match flags_of(alloc, options, first, second) {
        Ok(flags) => Ok(flags),
        Err(why) => Err(under(alloc, "options", why)),
    }
}

#[tactic(auto, unfolding(crate::specs::Operations::create_of))]
fn create_of(alloc: Global, root: &Url, notes: &Notes, item: &Value) -> Result<Operation, Shape>
    requires { IsPlainFileUrl root.now }
    ensures { Gives (create_of root.now (waits_by notes.now) (view item.now)) result }
{
    let path = path_at(alloc, root, item, "uri")?;
    let (overwrite, ignore) = options_in(alloc, item, "overwrite", "ignoreIfExists")?;
    let skipped = notes.skips(alloc, item)?;
    Ok(Operation {
        what: What::Resource(ResourceOp::Create {
            path,
            overwrite,
            ignore,
        }),
        skipped,
    })
}

#[tactic(auto, unfolding(crate::specs::Operations::rename_of))]
fn rename_of(alloc: Global, root: &Url, notes: &Notes, item: &Value) -> Result<Operation, Shape>
    requires { IsPlainFileUrl root.now }
    ensures { Gives (rename_of root.now (waits_by notes.now) (view item.now)) result }
{
    let from = path_at(alloc, root, item, "oldUri")?;
    let to = path_at(alloc, root, item, "newUri")?;
    let (overwrite, ignore) = options_in(alloc, item, "overwrite", "ignoreIfExists")?;
    let skipped = notes.skips(alloc, item)?;
    Ok(Operation {
        what: What::Resource(ResourceOp::Rename {
            from,
            to,
            overwrite,
            ignore,
        }),
        skipped,
    })
}

#[tactic(auto, unfolding(crate::specs::Operations::delete_of))]
fn delete_of(alloc: Global, root: &Url, notes: &Notes, item: &Value) -> Result<Operation, Shape>
    requires { IsPlainFileUrl root.now }
    ensures { Gives (delete_of root.now (waits_by notes.now) (view item.now)) result }
{
    let path = path_at(alloc, root, item, "uri")?;
    let (recursive, ignore) = options_in(alloc, item, "recursive", "ignoreIfNotExists")?;
    let skipped = notes.skips(alloc, item)?;
    Ok(Operation {
        what: What::Resource(ResourceOp::Delete {
            path,
            recursive,
            ignore,
        }),
        skipped,
    })
}

/// The version that the number is, if it is one (LSP 3.17, "integer").
fn version_of(version: &Value) -> Option<i64>
    ensures { result ≡ a_version (view version.now) }
{
    let number = version.as_i64()?;
    if number < -2_147_483_648 || number > 2_147_483_647 {
        return None;
    }
    Some(number)
}

fn version_in(alloc: Global, document: &Value) -> Result<Option<i64>, Shape>
    ensures { Gives (perhaps (codes "version") a_version (view document.now)) result }
{
    let Some(version) = optional(document, "version") else {
        return Ok(None);
    };
    match version_of(version) {
        Some(version) => Ok(Some(version)),
        None => Err(field(alloc, "version")),
    }
}

/// The path and the version that a text document has (LSP 3.17, "OptionalVersionedTextDocumentIdentifier").
#[tactic(auto, unfolding(crate::specs::Operations::document_of))]
fn document_of(alloc: Global, root: &Url, document: &Value) -> Result<(RelPath, Option<i64>), Shape>
    requires { IsPlainFileUrl root.now }
    ensures { Gives (document_of root.now (view document.now)) result }
{
    let path = path_at(alloc, root, document, "uri")?;
    let version = version_in(alloc, document)?;
    Ok((path, version))
}

fn document_at(alloc: Global, root: &Url, item: &Value) -> Result<(RelPath, Option<i64>), Shape>
    requires { IsPlainFileUrl root.now }
    ensures { Gives (within (codes "textDocument") an_object (document_of root.now) (view item.now)) result }
{
    let Some(document) = object_at(item, "textDocument") else {
        return Err(field(alloc, "textDocument"));
    };
    match document_of(alloc, root, document) {
        Ok(document) => Ok(document),
        Err(why) => Err(under(alloc, "textDocument", why)),
    }
}

fn edits_at(alloc: Global, notes: &Notes, item: &Value) -> Result<Edits, Shape>
    ensures { Gives (within (codes "edits") as_array (text_edits_of (waits_by notes.now)) (view item.now)) result }
{
    let Some(edits) = list_at(item, "edits") else {
        return Err(field(alloc, "edits"));
    };
    match text_edits_of(alloc, notes, edits) {
        Ok(edits) => Ok(edits),
        Err(why) => Err(under(alloc, "edits", why)),
    }
}

/// Edits of a text (LSP 3.17, "TextDocumentEdit").
#[tactic(auto, unfolding(crate::specs::Operations::text_change_of))]
fn text_change_of(
    alloc: Global,
    root: &Url,
    notes: &Notes,
    item: &Value,
) -> Result<Operation, Shape>
    requires { IsPlainFileUrl root.now }
    ensures { Gives (text_change_of root.now (waits_by notes.now) (view item.now)) result }
{
    let (path, version) = document_at(alloc, root, item)?;
    let edits = edits_at(alloc, notes, item)?;
    Ok(Operation {
        what: What::Text {
            path,
            version,
            edits,
        },
        skipped: false,
    })
}

/// What an item of `documentChanges` is.
#[derive(Clone, Copy)]
pub enum Kind {
    Text,
    Create,
    Rename,
    Delete,
}

impl Member for Kind {
    ghost kind = { one_of kind_names };

    fn read(value: &Value) -> Option<Kind>
        ensures { result ≡ one_of kind_names (view value.now) }
    {
        match value.as_str()? {
            "create" => Some(Kind::Create),
            "rename" => Some(Kind::Rename),
            "delete" => Some(Kind::Delete),
            _ => None,
        }
    }
}

fn operation_by(
    alloc: Global,
    root: &Url,
    notes: &Notes,
    kind: Kind,
    item: &Value,
) -> Result<Operation, Shape>
    requires { IsPlainFileUrl root.now }
    ensures { Gives (operation_by kind root.now (waits_by notes.now) (view item.now)) result }
{
    match kind {
        Kind::Text => text_change_of(alloc, root, notes, item),
        Kind::Create => create_of(alloc, root, notes, item),
        Kind::Rename => rename_of(alloc, root, notes, item),
        Kind::Delete => delete_of(alloc, root, notes, item),
    }
}

/// The operation that an item of `documentChanges` is.
#[tactic(auto, unfolding(crate::specs::Operations::operation_of))]
pub fn operation_of(
    alloc: Global,
    root: &Url,
    notes: &Notes,
    item: &Value,
) -> Result<Operation, Shape>
    requires { IsPlainFileUrl root.now }
    ensures { Gives (operation_of root.now (waits_by notes.now) (view item.now)) result }
{
    if !item.is_object() {
        return Err(wrong(alloc));
    }
    let kind = member_or(alloc, item, "kind", Kind::Text)?;
    operation_by(alloc, root, notes, kind, item)
}
