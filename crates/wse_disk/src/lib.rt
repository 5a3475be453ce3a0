// The disk that everything is read from and written to, and what a crash may leave of it.
#![tactic(auto)]

mod area;
mod areas;
mod call;
mod changes;
mod counts;
mod disk;
mod draft;
mod fate;
mod image;
pub mod laws;
mod lazy;
mod mem;
mod notes;
mod steps;

pub use area::Area;
pub use call::Call;
pub use changes::{change_synced, erase_synced, make_synced, store_synced};
pub use counts::CallCounts;
pub use disk::{Disk, Failed, Place, ReadErr};
pub use mem::MemDisk;
pub use steps::write_synced;
