// What becomes of an undo or a redo. All this is this project's own rule.
use wse_path::Files;

/// Why an element isn't moved at all its files.
#[derive(Debug, Clone, Copy, PartialEq, Eq)]
pub enum Cause {
    /// Parts of it are no longer live.
    Removed,
    /// Another element is the closest at some of its files.
    Changed,
    /// Another participant holds some of its files.
    Locked,
    /// Another program wrote some of its files.
    Invalid,
    /// The participant chose to.
    Chosen,
    /// Other commands changed the histories of some files while the participant was asked.
    Meantime,
}

/// What becomes of an undo or a redo.
#[derive(Drop)]
pub enum Ruling {
    /// There is no element to move.
    Nothing,
    /// The participant doesn't want it moved.
    Cancelled {
        id: u64,
    },
    /// The element is moved at all its files.
    Go {
        id: u64,
    },
    /// The element is split, and its piece at the asked path is judged by itself. `files` are those that the cause is about.
    Split {
        id: u64,
        cause: Cause,
        files: Files,
    },
    /// The histories of the files in `dropped` are closed. `files` are those that the cause is about.
    Flush {
        cause: Cause,
        files: Files,
        dropped: Files,
    },
    /// Another participant holds these files.
    Locked {
        files: Files,
    },
}
