// Elements, which are the records of the history, and what commands do to it.
#![tactic(auto)]

mod apart;
mod body;
mod effect;
mod element;
pub mod laws;
mod part;
mod plan;
mod rise;
mod search;
mod state;

pub use body::Body;
pub use effect::{Effect, Effects};
pub use element::{Element, Elements};
pub use part::{Part, Parts};
pub use plan::Plan;
pub use state::PartState;
