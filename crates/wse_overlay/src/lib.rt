// Files that are looked up, and trees with changes over them.
#![tactic(auto)]

mod contents;
mod difference;
mod lookups;
mod overlay;

pub use contents::Contents;
pub use overlay::Overlay;
