// Edits of a text as splices of it.
#![tactic(auto)]

mod edits;
mod fitting;
mod overlap;
mod range;
mod refused;
mod slowly;

pub use edits::resolve;
pub use refused::EditsRefused;
pub use slowly::edited_slowly;
