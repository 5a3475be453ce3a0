// What a stream of lines over a store promises: each answer, and what a crash may leave at each moment.
#![tactic(auto)]

pub mod laws;
mod machine;

pub use machine::HasMachine;
