// Commands from text.
use crate::given::{edit_of, path};
use std::alloc::Global;
use std::test::Fail;
use wse_path::{Bytes, Choice, Command, Direction, Files};

fn choice_of(word: &str) -> Choice {
    match word {
        "this" => Choice::This,
        "cancel" => Choice::Cancel,
        _ => Choice::All,
    }
}

/// `PATH` or `PATH CHOICE`.
fn move_of(alloc: Global, by: u32, direction: Direction, words: &str) -> Result<Command, Fail> {
    let (file, choice) = words.split_once(' ').unwrap_or((words, ""));
    Ok(Command::Move {
        by,
        direction,
        path: path(alloc, file)?,
        choice: choice_of(choice),
    })
}

fn files_of(alloc: Global, words: &str) -> Result<Files, Fail> {
    let mut files = Vec::new(alloc);
    for word in words.split(' ') {
        files.push(path(alloc, word)?)?;
    }
    Ok(Files::new(files))
}

/// `PATH TEXT`, or `PATH` where it isn't there.
fn outside_of(alloc: Global, words: &str) -> Result<Command, Fail> {
    let (file, content) = match words.split_once(' ') {
        Some((file, text)) => {
            let bytes = text.as_bytes().to_vec(alloc)?;
            (file, Some(Bytes::new(bytes)))
        }
        None => (words, None),
    };
    Ok(Command::Outside {
        path: path(alloc, file)?,
        content,
    })
}

fn locking_of(alloc: Global, by: u32, kind: &str, words: &str) -> Result<Command, Fail> {
    let files = files_of(alloc, words)?;
    if kind == "lock" {
        return Ok(Command::Lock { by, files });
    }
    Ok(Command::Unlock { by, files })
}

fn report_of(alloc: Global, by: u32, kind: &str, words: &str) -> Result<Command, Fail> {
    match kind {
        "outside" => outside_of(alloc, words),
        "forget" => Ok(Command::Forget {
            path: path(alloc, words)?,
        }),
        "look" => Ok(Command::Look {
            path: path(alloc, words)?,
        }),
        _ => Ok(Command::Leave { by }),
    }
}

/// `undo PATH`, `redo PATH`, `lock PATH ..`, `unlock PATH ..`, `leave`, `outside PATH TEXT`, `forget PATH`, `look PATH`, or the
/// operations of an edit. It is of participant 1, or of the one behind ` by `.
pub fn command_of(alloc: Global, asked: &str) -> Result<Command, Fail> {
    let (words, by) = asked.split_once(" by ").unwrap_or((asked, "1"));
    let by = by.parse().unwrap_or(1);
    let (kind, rest) = words.split_once(' ').unwrap_or((words, ""));
    match kind {
        "undo" => move_of(alloc, by, Direction::Back, rest),
        "redo" => move_of(alloc, by, Direction::Forward, rest),
        "lock" | "unlock" => locking_of(alloc, by, kind, rest),
        "leave" | "outside" | "forget" | "look" => report_of(alloc, by, kind, rest),
        _ => {
            let edit = edit_of(alloc, "abort", words)?;
            Ok(Command::Edit { by, edit })
        }
    }
}
