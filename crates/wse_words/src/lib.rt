// The words of the command line, and how they are read.
#![tactic(auto)]

mod behind_root;
pub mod laws;
mod numbers;
mod options;
mod places;
mod usage;
mod words;

pub use options::Options;
pub use usage::usage_text;
pub use words::{Places, Words, read_words};
