// Answers to commands other than edits, as text.
use crate::said::{limit_name, push_changed, push_number, said};
use std::alloc::Global;
use wse_history::{Answer, MoveEnd, SplitNote};
use wse_path::{Memory, RelPath};
use wse_rules::Cause;

fn push_word(text: &mut String, word: &str) -> Result<(), Memory> {
    text.push(' ')?;
    text.push_str(word)?;
    Ok(())
}

fn push_files(
    alloc: Global,
    text: &mut String,
    name: &str,
    files: &[RelPath],
) -> Result<(), Memory> {
    push_word(text, name)?;
    for file in files {
        let shown = file.text(alloc)?;
        push_word(text, shown.as_str())?;
    }
    Ok(())
}

fn cause_name(cause: &Cause) -> &'static str {
    match cause {
        Cause::Removed => "removed",
        Cause::Changed => "changed",
        Cause::Locked => "locked",
        Cause::Invalid => "invalid",
        Cause::Chosen => "chosen",
        Cause::Meantime => "meantime",
    }
}

fn push_note(alloc: Global, text: &mut String, split: &Option<SplitNote>) -> Result<(), Memory> {
    match split {
        Some(SplitNote { id, cause, files }) => {
            push_number(alloc, text, "split", *id)?;
            push_files(alloc, text, cause_name(cause), files.as_slice())
        }
        None => Ok(()),
    }
}

fn push_end(alloc: Global, text: &mut String, end: &MoveEnd) -> Result<(), Memory> {
    match end {
        MoveEnd::Nothing => push_word(text, "nothing"),
        MoveEnd::Cancelled { id } => push_number(alloc, text, "cancelled", *id),
        MoveEnd::Done { id, changed } => {
            push_number(alloc, text, "done", *id)?;
            push_changed(alloc, text, changed.as_slice())
        }
        MoveEnd::Locked { files } => push_files(alloc, text, "held", files.as_slice()),
        MoveEnd::Flushed {
            cause,
            files,
            dropped,
        } => {
            push_files(alloc, text, cause_name(cause), files.as_slice())?;
            push_files(alloc, text, "flushed", dropped.as_slice())
        }
        MoveEnd::InTheWay { id, files } => {
            push_number(alloc, text, "for", *id)?;
            push_files(alloc, text, "blocked", files.as_slice())
        }
        MoveEnd::Limit { id, hit } => {
            push_number(alloc, text, "for", *id)?;
            push_number(alloc, text, limit_name(hit.which), hit.would_be)
        }
    }
}

fn push_sharing(alloc: Global, text: &mut String, answer: &Answer) -> Result<(), Memory> {
    match answer {
        Answer::Taken => push_word(text, "taken"),
        Answer::Held { files } => push_files(alloc, text, "held", files.as_slice()),
        Answer::Freed => push_word(text, "freed"),
        Answer::NotHeld { file } => {
            let shown = file.text(alloc)?;
            push_word(text, "free")?;
            push_word(text, shown.as_str())
        }
        _ => push_word(text, "left"),
    }
}

fn push_look(
    alloc: Global,
    text: &mut String,
    name: &str,
    number: Option<u64>,
) -> Result<(), Memory> {
    match number {
        Some(number) => push_number(alloc, text, name, number),
        None => Ok(()),
    }
}

fn push_report(alloc: Global, text: &mut String, answer: &Answer) -> Result<(), Memory> {
    match answer {
        Answer::Recorded { changed } => push_changed(alloc, text, changed.as_slice()),
        Answer::Same => push_word(text, "same"),
        Answer::OutsideInTheWay { files } => push_files(alloc, text, "blocked", files.as_slice()),
        Answer::Refused { hit } => push_number(alloc, text, limit_name(hit.which), hit.would_be),
        Answer::Forgotten => push_word(text, "forgotten"),
        Answer::NothingThere => push_word(text, "none"),
        Answer::Look {
            bytes,
            text: _,
            version,
            past,
            future,
            holder: _,
        } => {
            push_look(alloc, text, "bytes", *bytes)?;
            push_number(alloc, text, "version", u64::from(*version))?;
            push_look(alloc, text, "past", *past)?;
            push_look(alloc, text, "future", *future)
        }
        _ => push_sharing(alloc, text, answer),
    }
}

/// The answer in words: for an undo or a redo the split, and how it ended.
pub fn told(alloc: Global, answer: &Answer) -> Result<String, Memory> {
    let mut text = String::new(alloc);
    match answer {
        Answer::Edit { .. } => return said(alloc, answer),
        Answer::Move { split, end } => {
            push_note(alloc, &mut text, split)?;
            push_end(alloc, &mut text, end)?;
        }
        _ => push_report(alloc, &mut text, answer)?,
    }
    Ok(text)
}
