// Replies to lines, and their texts.
ghost use Rattle.std.specs.Prelude.{◌≡◌, IfOk};
ghost use Rattle.serde_json.specs.View.{view};
ghost use Rattle.wse_reply.specs.Objects.{members_in};
ghost use Rattle.wse_reply.specs.Reply.{answer_members, reply_data, reply_text};

use crate::edits::edit_object;
use crate::moves::move_object;
use crate::object::Object;
use crate::refusals::{shape_value, too_long_value};
use crate::told::{
    files_object, look_object, not_held_object, recorded_object, refused_object, result_object,
};
use serde_json::Value;
use std::alloc::Global;
use wse_history::Answer;
use wse_json::Shape;
use wse_path::{Bytes, Memory};

/// What a line is replied. This project's own.
#[derive(Drop)]
pub enum Reply {
    /// The line was a command.
    Answer(Answer),
    /// The line is no command. Never `Shape::Memory`.
    Shape(Shape),
    /// The line has too many bytes: these.
    TooLong { bytes: u64 },
}

fn answer_object(alloc: Global, n: u64, answer: &Answer) -> Result<Object, Memory>
    ensures { IfOk result (λ object. members_in object ≡ answer_members n answer.now) }
{
    match answer {
        Answer::Edit {
            changed,
            element,
            failed,
            limit,
            skipped,
        } => edit_object(
            alloc,
            n,
            changed.as_slice(),
            *element,
            failed,
            *limit,
            skipped.as_slice(),
        ),
        Answer::Move { split, end } => move_object(alloc, n, split, end),
        Answer::Taken => result_object(alloc, n, "taken"),
        Answer::Held { files } => files_object(alloc, n, files.as_slice(), "held"),
        Answer::Freed => result_object(alloc, n, "freed"),
        Answer::NotHeld { file } => not_held_object(alloc, n, file),
        Answer::Left => result_object(alloc, n, "left"),
        Answer::Recorded { changed } => recorded_object(alloc, n, changed.as_slice()),
        Answer::Same => result_object(alloc, n, "same"),
        Answer::OutsideInTheWay { files } => {
            files_object(alloc, n, files.as_slice(), "in the way")
        }
        Answer::Refused { hit } => refused_object(alloc, n, *hit),
        Answer::Forgotten => result_object(alloc, n, "forgotten"),
        Answer::NothingThere => result_object(alloc, n, "nothing"),
        Answer::Look {
            bytes,
            text,
            version,
            past,
            future,
            holder,
        } => look_object(alloc, n, *bytes, text, *version, *past, *future, *holder),
    }
}

fn reply_value(alloc: Global, n: u64, reply: &Reply) -> Result<Value, Memory>
    ensures { IfOk result (λ value. view value ≡ reply_data n reply.now) }
{
    match reply {
        Reply::Answer(answer) => Ok(answer_object(alloc, n, answer)?.into_value()),
        Reply::Shape(shape) => shape_value(alloc, n, shape),
        Reply::TooLong { bytes } => too_long_value(alloc, n, *bytes),
    }
}

/// The reply to line `n` as it is emitted: one JSON object as `serde_json` writes it without spaces, its members in byte
/// order of their names, and `\n`.
pub fn reply_text(alloc: Global, n: u64, reply: &Reply) -> Result<Bytes, Memory>
    ensures { IfOk result (λ bytes. bytes ≡ reply_text n reply.now) }
{
    let value = reply_value(alloc, n, reply)?;
    let mut line = value.to_vec(alloc)?;
    line.push(b'\n')?;
    Ok(Bytes::new(line))
}
