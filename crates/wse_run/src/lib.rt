// A run over a store: the store is opened, and the lines of a source are answered.
#![tactic(auto)]

mod end;
mod run;

pub use end::RunEnd;
pub use run::{RanStore, StoreRun, run_store, unopened};
