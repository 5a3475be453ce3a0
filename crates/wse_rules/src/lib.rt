// What becomes of an undo or a redo.
#![tactic(auto)]

mod blocking;
mod closest;
mod judge;
mod ruling;

pub use judge::verdict;
pub use ruling::{Cause, Ruling};
