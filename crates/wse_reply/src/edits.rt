// The answer to an edit, as JSON.
ghost use Rattle.std.specs.Prelude.{◌≡◌, IfOk};
ghost use Rattle.wse_reply.specs.Objects.{members_in};
ghost use Rattle.wse_reply.specs.Edited.{applied_members, failed_members, limit_members, edit_members};

use crate::limits::limit_text;
use crate::object::Object;
use crate::reasons::reason_text;
use crate::values::{number_value, skips_value, versions_value};
use serde_json::{Map, Value};
use std::alloc::Global;
use wse_apply::{Reason, Skip};
use wse_path::{Hit, Memory, Numbered};

/// The edit was applied.
fn applied_object(
    alloc: Global,
    n: u64,
    changed: &[Numbered],
    element: Option<u64>,
    skipped: &[Skip],
) -> Result<Object, Memory>
    ensures { IfOk result (λ object. members_in object ≡ applied_members n changed.now element skipped.now) }
{
    Object::new(alloc)
        .flag("applied", true)?
        .with("changed", versions_value(alloc, changed)?)?
        .with("element", number_value(element))?
        .number("n", n)?
        .with("skipped", skips_value(alloc, skipped)?)
}

/// An operation failed: the one with this index, for this reason.
fn failed_object(
    alloc: Global,
    n: u64,
    changed: &[Numbered],
    element: Option<u64>,
    index: u64,
    why: &Reason,
    skipped: &[Skip],
) -> Result<Object, Memory>
    ensures { IfOk result (λ object. members_in object
        ≡ failed_members n changed.now element index why.now skipped.now) }
{
    Object::new(alloc)
        .flag("applied", false)?
        .with("changed", versions_value(alloc, changed)?)?
        .with("element", number_value(element))?
        .number("failedChange", index)?
        .with("failureReason", Value::String(reason_text(alloc, why)?))?
        .number("n", n)?
        .with("skipped", skips_value(alloc, skipped)?)
}

/// The whole edit would pass a limit.
fn limit_object(alloc: Global, n: u64, hit: Hit, skipped: &[Skip]) -> Result<Object, Memory>
    ensures { IfOk result (λ object. members_in object ≡ limit_members n hit skipped.now) }
{
    Object::new(alloc)
        .flag("applied", false)?
        .with("changed", Value::Object(Map::new(alloc)))?
        .with("element", Value::Null)?
        .with("failureReason", Value::String(limit_text(alloc, hit)?))?
        .number("n", n)?
        .with("skipped", skips_value(alloc, skipped)?)
}

/// The answer to an edit.
pub fn edit_object(
    alloc: Global,
    n: u64,
    changed: &[Numbered],
    element: Option<u64>,
    failed: &Option<(u64, Reason)>,
    limit: Option<Hit>,
    skipped: &[Skip],
) -> Result<Object, Memory>
    ensures { IfOk result (λ object. members_in object
        ≡ edit_members n changed.now element failed.now limit skipped.now) }
{
    match failed {
        Some((index, why)) => failed_object(alloc, n, changed, element, *index, why, skipped),
        None => match limit {
            Some(hit) => limit_object(alloc, n, hit, skipped),
            None => applied_object(alloc, n, changed, element, skipped),
        },
    }
}
