// Typed states that own a disk and write one record of its journal.
#![tactic(auto)]

mod broken;
mod command;
mod drafted;
mod idle;
pub mod laws;
mod sealed;
mod settled;
mod steps;

pub use broken::Broken;
pub use command::write;
pub use drafted::Drafted;
pub use idle::{DraftRefused, Idle};
pub use sealed::Sealed;
pub use settled::Settled;
