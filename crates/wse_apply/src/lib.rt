// Whole edits: operations one after another over a tree, and what becomes of them.
#![tactic(auto)]

mod accept;
mod after;
mod course;
mod difference;
mod kept;
mod limits;
mod performed;
mod reason;
mod resource;
mod setting;
mod sizes;
mod skips;
mod slowly;
mod stop;
mod text;
mod unchanged;

pub use after::limit_hit_after;
pub use limits::{are_within_standard, limit_hit};
pub use performed::{Performed, perform};
pub use reason::Reason;
pub use skips::{Skip, Skips};
pub use slowly::performed_slowly;
