// What a command is going to do.
use crate::answer::Answer;
use wse_element::Plan;
use wse_locks::Locks;

/// What a command is going to do, and its answer. This project's own.
#[derive(Drop)]
pub struct Planned {
    /// The effects that are recorded, none where nothing is, and what they change in the tree.
    pub plan: Plan,
    /// The locks that it leaves, where it changes them.
    pub locks: Option<Locks>,
    pub answer: Answer,
}
