// Two folders of the file system as a disk.
#![tactic(auto)]

mod areas;
mod clearing;
mod dir;
mod erasing;
mod holding;
mod kinds;
mod listing;
mod making;
mod places;
mod reading;
mod storing;
mod touched;
mod writing;

pub use dir::DirDisk;
pub use holding::Hold;
