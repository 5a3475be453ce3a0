// What a line is replied: the answer to its command, or why it is none, as one line of JSON.
#![tactic(auto)]

mod edits;
mod limits;
mod moves;
mod object;
mod reasons;
mod refusals;
mod reply;
mod told;
mod values;

pub use limits::limit_name;
pub use moves::cause_name;
pub use reply::{Reply, reply_text};
