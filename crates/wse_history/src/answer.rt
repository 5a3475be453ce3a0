// What a command is answered.
use wse_apply::{Reason, Skips};
use wse_path::{Bumps, Files, Hit, RelPath, Text};
use wse_rules::Cause;

/// An element was split before it was undone or redone. This project's own.
#[derive(Drop)]
pub struct SplitNote {
    /// The element that was split.
    pub id: u64,
    /// Why.
    pub cause: Cause,
    /// The files for which, in path order.
    pub files: Files,
}

/// How an undo or a redo ended. This project's own.
#[derive(Drop)]
pub enum MoveEnd {
    /// There was nothing to undo or redo.
    Nothing,
    /// It wasn't wanted.
    Cancelled {
        id: u64,
    },
    /// The element was undone or redone.
    Done {
        id: u64,
        /// Its paths with their new versions.
        changed: Bumps,
    },
    /// Another participant holds these files.
    Locked {
        files: Files,
    },
    /// What the history knew of the dropped files is gone.
    Flushed {
        cause: Cause,
        /// The files for which, in path order.
        files: Files,
        dropped: Files,
    },
    /// Files outside the element are above or under a file that it would make present. Nothing changed.
    InTheWay {
        /// The element that was closest before any split.
        id: u64,
        files: Files,
    },
    /// A limit would be passed. Nothing changed.
    Limit {
        /// The element that was closest before any split.
        id: u64,
        hit: Hit,
    },
}

/// What a command is answered. Versions are those behind the command, and lists of files stand in path order. This project's
/// own.
#[derive(Drop)]
pub enum Answer {
    /// An edit. It failed at an operation, or would pass a limit as a whole, or was applied. Beside a limit nothing changed,
    /// and `changed`, `element` and `failed` aren't told.
    Edit {
        /// The paths whose versions rose, with their new versions.
        changed: Bumps,
        /// The element that it made, where it made one.
        element: Option<u64>,
        /// The operation that failed, in the list as it was given, and why.
        failed: Option<(u64, Reason)>,
        /// The limit that the whole edit would pass.
        limit: Option<Hit>,
        /// What was left out because it waits for a confirmation.
        skipped: Skips,
    },
    /// An undo or a redo.
    Move {
        split: Option<SplitNote>,
        end: MoveEnd,
    },
    /// The files are locked now.
    Taken,
    /// Others hold these files. Nothing changed.
    Held {
        files: Files,
    },
    /// The files are free now.
    Freed,
    /// The participant doesn't hold this file, the first such of those named. Nothing changed.
    NotHeld {
        file: RelPath,
    },
    /// The participant holds no file any more.
    Left,
    /// What another program did is recorded.
    Recorded {
        changed: Bumps,
    },
    /// The file has this content already. Nothing changed.
    Same,
    /// These files are above or under the one that another program made. Nothing changed.
    OutsideInTheWay {
        files: Files,
    },
    /// The report or the forgetting would pass a limit. Nothing changed.
    Refused {
        hit: Hit,
    },
    /// The path's history is forgotten.
    Forgotten,
    /// The path had no history. Nothing changed.
    NothingThere,
    /// What is known of a path.
    Look {
        /// How many bytes the file has, where there is one.
        bytes: Option<u64>,
        /// Its text, where it is UTF-8.
        text: Option<Text>,
        version: u32,
        /// The element that an undo there would be about.
        past: Option<u64>,
        /// The element that a redo there would be about.
        future: Option<u64>,
        /// The participant that holds the path.
        holder: Option<u32>,
    },
}
