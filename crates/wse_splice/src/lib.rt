// Texts in place of ranges of another text.
#![tactic(auto)]

mod splice;

pub use splice::{Splice, Splices, apply};
