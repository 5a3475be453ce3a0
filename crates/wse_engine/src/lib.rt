// A disk and the history that it stands for: one crash-safe step for each command.
#![tactic(auto)]

mod engine;
mod exec;
mod start;

pub use engine::{Engine, ExecFault};
