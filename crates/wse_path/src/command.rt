// What a participant asks of the workspace. All this is this project's own.
use crate::edit::Edit;
use crate::items::{Bytes, Files};
use crate::path::RelPath;

/// What is to become of an edit of several files that can be split, where it is to be undone at one of them. A redo
/// ignores it.
#[derive(Drop)]
pub enum Choice {
    /// It is moved at all its files.
    All,
    /// It is split, and moved at the named file alone.
    This,
    /// Nothing is moved.
    Cancel,
    /// It is split, since other commands changed these files' histories meanwhile. No line says this.
    Turned { files: Files },
}

/// Which way an edit is moved.
#[derive(Clone, Copy, PartialEq, Eq)]
pub enum Direction {
    /// Undo.
    Back,
    /// Redo.
    Forward,
}

/// One command. `by` is the participant that gives it.
#[derive(Drop)]
pub enum Command {
    /// Performs an edit.
    Edit {
        by: u32,
        edit: Edit,
    },
    /// Undoes or redoes the edit that is closest at the path.
    Move {
        by: u32,
        direction: Direction,
        path: RelPath,
        choice: Choice,
    },
    /// Locks the files.
    Lock {
        by: u32,
        files: Files,
    },
    /// Frees the files.
    Unlock {
        by: u32,
        files: Files,
    },
    /// Frees all files that the participant holds.
    Leave {
        by: u32,
    },
    /// Tells what another program made of a file. None: it isn't there.
    Outside {
        path: RelPath,
        content: Option<Bytes>,
    },
    /// Forgets what the history knows of the path.
    Forget {
        path: RelPath,
    },
    /// Asks for what is known of the path.
    Look {
        path: RelPath,
    },
}
