// The answer to an undo or a redo, as JSON.
ghost use Rattle.std.specs.Prelude.{◌≡◌, IfOk};
ghost use Rattle.serde_json.specs.View.{view};
ghost use Rattle.wse_history.specs.declared.answer.MoveEnd.TheVariants as ends;
ghost use Rattle.wse_reply.specs.Objects.{members_in};
ghost use Rattle.wse_reply.specs.Moved.{cause_name, end_members, note_data, put_note, move_members};

use crate::limits::limit_name;
use crate::object::Object;
use crate::values::{files_value, versions_value};
use serde_json::Value;
use std::alloc::Global;
use wse_history::{MoveEnd, SplitNote};
use wse_path::{Files, Hit, Memory, Numbered, RelPath};
use wse_rules::Cause;

/// The cause's text.
pub fn cause_name(cause: Cause) -> &'static str
    ensures { result.now ≡ cause_name cause }
{
    match cause {
        Cause::Removed => "removed",
        Cause::Changed => "changed",
        Cause::Locked => "locked",
        Cause::Invalid => "invalid",
        Cause::Chosen => "chosen",
        Cause::Meantime => "meantime",
    }
}

fn nothing_object(alloc: Global, n: u64) -> Result<Object, Memory>
    ensures { IfOk result (λ object. members_in object ≡ end_members n ends.Nothing) }
{
    Object::new(alloc).number("n", n)?.text("result", "nothing")
}

fn cancelled_object(alloc: Global, n: u64, id: u64) -> Result<Object, Memory>
    ensures { IfOk result (λ object. members_in object ≡ end_members n (ends.Cancelled id)) }
{
    Object::new(alloc)
        .number("element", id)?
        .number("n", n)?
        .text("result", "cancelled")
}

fn done_object(alloc: Global, n: u64, id: u64, changed: &[Numbered]) -> Result<Object, Memory>
    ensures { IfOk result (λ object. members_in object ≡ end_members n (ends.Done id changed.now)) }
{
    Object::new(alloc)
        .with("changed", versions_value(alloc, changed)?)?
        .number("element", id)?
        .number("n", n)?
        .text("result", "done")
}

fn locked_object(alloc: Global, n: u64, files: &[RelPath]) -> Result<Object, Memory>
    ensures { IfOk result (λ object. members_in object ≡ end_members n (ends.Locked files.now)) }
{
    Object::new(alloc)
        .with("files", files_value(alloc, files)?)?
        .number("n", n)?
        .text("result", "locked")
}

fn flushed_object(
    alloc: Global,
    n: u64,
    cause: Cause,
    files: &[RelPath],
    dropped: &[RelPath],
) -> Result<Object, Memory>
    ensures { IfOk result (λ object. members_in object ≡ end_members n (ends.Flushed cause files.now dropped.now)) }
{
    Object::new(alloc)
        .text("cause", cause_name(cause))?
        .with("dropped", files_value(alloc, dropped)?)?
        .with("files", files_value(alloc, files)?)?
        .number("n", n)?
        .text("result", "flushed")
}

fn in_the_way_object(alloc: Global, n: u64, id: u64, files: &[RelPath]) -> Result<Object, Memory>
    ensures { IfOk result (λ object. members_in object ≡ end_members n (ends.InTheWay id files.now)) }
{
    Object::new(alloc)
        .number("element", id)?
        .with("files", files_value(alloc, files)?)?
        .number("n", n)?
        .text("result", "in the way")
}

fn limit_object(alloc: Global, n: u64, id: u64, hit: Hit) -> Result<Object, Memory>
    ensures { IfOk result (λ object. members_in object ≡ end_members n (ends.Limit id hit)) }
{
    Object::new(alloc)
        .number("element", id)?
        .number("n", n)?
        .text("result", "limit")?
        .text("which", limit_name(hit.which))?
        .number("would_be", hit.would_be)
}

/// How the move ended.
fn end_object(alloc: Global, n: u64, end: &MoveEnd) -> Result<Object, Memory>
    ensures { IfOk result (λ object. members_in object ≡ end_members n end.now) }
{
    match end {
        MoveEnd::Nothing => nothing_object(alloc, n),
        MoveEnd::Cancelled { id } => cancelled_object(alloc, n, *id),
        MoveEnd::Done { id, changed } => done_object(alloc, n, *id, changed.as_slice()),
        MoveEnd::Locked { files } => locked_object(alloc, n, files.as_slice()),
        MoveEnd::Flushed {
            cause,
            files,
            dropped,
        } => flushed_object(alloc, n, *cause, files.as_slice(), dropped.as_slice()),
        MoveEnd::InTheWay { id, files } => in_the_way_object(alloc, n, *id, files.as_slice()),
        MoveEnd::Limit { id, hit } => limit_object(alloc, n, *id, *hit),
    }
}

/// Why which element was split, and for which files.
fn note_value(alloc: Global, note: &SplitNote) -> Result<Value, Memory>
    ensures { IfOk result (λ value. view value ≡ note_data note.now) }
{
    let object = Object::new(alloc)
        .text("cause", cause_name(note.cause))?
        .with("files", files_value(alloc, note.files.as_slice())?)?
        .number("id", note.id)?;
    Ok(object.into_value())
}

/// The answer to an undo or a redo.
pub fn move_object(
    alloc: Global,
    n: u64,
    split: &Option<SplitNote>,
    end: &MoveEnd,
) -> Result<Object, Memory>
    ensures { IfOk result (λ object. members_in object ≡ move_members n split.now end.now) }
{
    let object = end_object(alloc, n, end)?;
    match split {
        Some(note) => object.with("split", note_value(alloc, note)?),
        None => Ok(object),
    }
}
