// The answers that tell a result, and what is known of a path, as JSON.
ghost use Rattle.std.specs.Prelude.{◌≡◌, IfOk};
ghost use Rattle.wse_reply.specs.Objects.{members_in};
ghost use Rattle.wse_reply.specs.Told.{result_members, files_members, not_held_members, recorded_members, refused_members, look_members};

use crate::limits::limit_name;
use crate::object::Object;
use crate::values::{files_value, number_value, text_value, versions_value};
use serde_json::Value;
use std::alloc::Global;
use wse_path::{Hit, Memory, Numbered, RelPath, Text};

/// Nothing but the result.
pub fn result_object(alloc: Global, n: u64, told: &str) -> Result<Object, Memory>
    ensures { IfOk result (λ object. members_in object ≡ result_members n told.now) }
{
    Object::new(alloc).number("n", n)?.text("result", told)
}

/// The result with the files that it is about.
pub fn files_object(alloc: Global, n: u64, files: &[RelPath], told: &str) -> Result<Object, Memory>
    ensures { IfOk result (λ object. members_in object ≡ files_members n files.now told.now) }
{
    Object::new(alloc)
        .with("files", files_value(alloc, files)?)?
        .number("n", n)?
        .text("result", told)
}

/// The participant doesn't hold this file.
pub fn not_held_object(alloc: Global, n: u64, file: &RelPath) -> Result<Object, Memory>
    ensures { IfOk result (λ object. members_in object ≡ not_held_members n file.now) }
{
    Object::new(alloc)
        .text("file", file.text(alloc)?.as_str())?
        .number("n", n)?
        .text("result", "not held")
}

/// What another program did is recorded.
pub fn recorded_object(alloc: Global, n: u64, changed: &[Numbered]) -> Result<Object, Memory>
    ensures { IfOk result (λ object. members_in object ≡ recorded_members n changed.now) }
{
    Object::new(alloc)
        .with("changed", versions_value(alloc, changed)?)?
        .number("n", n)?
        .text("result", "recorded")
}

/// A limit would be passed.
pub fn refused_object(alloc: Global, n: u64, hit: Hit) -> Result<Object, Memory>
    ensures { IfOk result (λ object. members_in object ≡ refused_members n hit) }
{
    Object::new(alloc)
        .number("n", n)?
        .text("result", "limit")?
        .text("which", limit_name(hit.which))?
        .number("would_be", hit.would_be)
}

/// The participant's number, if there is one, in 64 bits.
fn widened(holder: Option<u32>) -> Option<u64>
    ensures { result ≡ holder }
{
    holder.map(u64::from)
}

/// What is known of a path.
pub fn look_object(
    alloc: Global,
    n: u64,
    bytes: Option<u64>,
    text: &Option<Text>,
    version: u32,
    past: Option<u64>,
    future: Option<u64>,
    holder: Option<u32>,
) -> Result<Object, Memory>
    ensures { IfOk result (λ object. members_in object ≡ look_members n bytes text.now version past future holder) }
{
    Object::new(alloc)
        .with("bytes", number_value(bytes))?
        .with("future", number_value(future))?
        .with("holder", number_value(widened(holder)))?
        .number("n", n)?
        .with("past", number_value(past))?
        .with("text", text_value(alloc, text)?)?
        .number("version", u64::from(version))
}
