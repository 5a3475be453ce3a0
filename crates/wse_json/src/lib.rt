// Commands as lines of JSON.
#![tactic(auto)]

mod changes;
mod command;
mod kinds;
mod members;
mod notes;
mod operations;
mod paths;
mod pointer;
mod shape;
mod text_edits;

pub use command::read_command;
pub use shape::Shape;
