// One step of the history: what a command does, and its answer.
#![tactic(auto)]

mod answer;
mod asked;
mod changes;
mod closes;
mod edits;
mod effects;
mod forgets;
mod goes;
mod history;
mod hits;
pub mod laws;
mod limits;
mod looks;
mod moves;
mod outsides;
mod planned;
mod plans;
mod room;
mod shares;
mod splits;
mod versions;
mod way;
mod written;

pub use answer::{Answer, MoveEnd, SplitNote};
pub use history::History;
pub use planned::Planned;
