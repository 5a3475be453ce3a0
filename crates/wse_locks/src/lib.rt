// Locks on paths, held by participants.
#![tactic(auto)]

mod locks;
mod refused;

pub use locks::Locks;
pub use refused::{LockRefused, NotHeld};
