// Resource operations over files that are looked up.
#![tactic(auto)]

mod copies;
mod course;
mod moves;
mod operation;
mod over;
mod refused;
mod slowly;

pub use operation::{operate, operate_on};
pub use refused::OpRefused;
pub use slowly::operated_slowly;
