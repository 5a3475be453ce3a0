// Texts, and where positions lie in them.
#![tactic(auto)]

mod index;
mod place;
mod utf8;

pub use index::LineIndex;
pub use place::{Inside, offset};
pub use utf8::{NotText, as_text};
