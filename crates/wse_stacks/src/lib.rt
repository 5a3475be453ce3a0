// The history's stacks, kept as one list of elements.
#![tactic(auto)]

mod draft;
mod entry;
mod fits;
mod image;
mod indexed;
mod link;
mod look;
mod lose;
mod may;
mod paths;
mod prepare;
mod prepared;
mod records;
mod refused;
mod remembered;
mod search;
mod sets;
mod stacks;
mod touched;
mod turned;
mod weigh;

pub use refused::{ReserveRefused, StacksRefused};
pub use stacks::Stacks;
