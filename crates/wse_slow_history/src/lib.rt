// One step of the history as it is defined: whole lists, and no care for speed. For small histories, beside which the history
// that is kept can be laid.
#![tactic(auto)]

mod after;
mod course;
mod edits;
mod effects;
mod forgetting;
mod held;
mod leaving;
mod limits;
mod locking;
mod looking;
mod moves;
mod outcome;
mod outsides;
mod ruling;
mod state;
mod step;
mod unlocking;
mod way;

pub use state::SlowState;
pub use step::stepped_slowly;
