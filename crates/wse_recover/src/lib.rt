// Making stores and reading their journals.
#![tactic(auto)]

mod adopting;
mod begin;
mod bumps;
mod changes;
mod choose;
mod compared;
mod differing;
mod enter;
mod fault;
mod finish;
mod first;
mod first_record;
mod found;
mod in_the_way;
mod init;
pub mod laws;
mod load;
mod measure;
mod open;
mod read;
mod replay;
mod round;
mod sets;
mod snapshot;
mod unfinished;
mod unsettled;
mod within;

pub use fault::{InitFault, ReplayFault};
pub use init::init_store;
pub use open::{OpenFault, Opened, open_store};
pub use read::{Journal, read_journal};
pub use unsettled::Unsettled;
