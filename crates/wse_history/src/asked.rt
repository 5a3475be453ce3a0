// An undo or a redo that was asked for.
use crate::answer::SplitNote;
use wse_path::Direction;

/// An undo or a redo as it goes on.
#[derive(Drop)]
pub(crate) struct Asked {
    pub(crate) direction: Direction,
    /// The element that was closest before any split.
    pub(crate) id: u64,
    /// The split that came before the rest, if one did.
    pub(crate) split: Option<SplitNote>,
}
