// The calls that a disk in memory keeps a record of.
ghost use Rattle.std.specs.Prelude.{◌≡◌, ◌⊎◌, ◌≤◌, ◌-◌, length, drop, false};
ghost use Rattle.std.specs.List.{list_any};
ghost use Rattle.wse_disk.specs.Runs.{write_of, has_failed, is_done_sync, IsSyncAt};

use crate::area::Area;
use wse_path::{Bytes, RelPath};

/// A call that changes what a disk holds, or makes it last, and whether it failed.
#[derive(Drop)]
pub enum Call {
    /// The bytes were stored at the path.
    Store {
        path: RelPath,
        bytes: Bytes,
        failed: bool,
    },
    /// The path was erased.
    Erase {
        path: RelPath,
        failed: bool,
    },
    /// The bytes were written into the area from the place `at` on.
    Patch {
        area: Area,
        at: u64,
        bytes: Bytes,
        failed: bool,
    },
    /// All writes so far were made last.
    Sync {
        failed: bool,
    },
}

impl Call {
    /// Whether it failed.
    pub fn has_failed(&self) -> bool
        ensures { result ≡ has_failed self.now }
    {
        match self {
            Call::Store {
                path: _,
                bytes: _,
                failed,
            } => *failed,
            Call::Erase { path: _, failed } => *failed,
            Call::Patch {
                area: _,
                at: _,
                bytes: _,
                failed,
            } => *failed,
            Call::Sync { failed } => *failed,
        }
    }

    // Whether it is a sync that succeeded.
    pub(crate) fn is_done_sync(&self) -> bool
        ensures { result ≡ is_done_sync self.now }
    {
        match self {
            Call::Sync { failed } => !*failed,
            _ => false,
        }
    }

    // How many writes it asks for: none for a sync, and else one.
    pub(crate) fn writes(&self) -> usize
        ensures { result ≡ length (write_of self.now) }
    {
        match self {
            Call::Sync { failed: _ } => 0,
            _ => 1,
        }
    }
}

/// How many calls there are up to the last sync that succeeded, with that one.
pub fn count_synced(calls: &[Call]) -> usize
    ensures within { result ≤ length calls.now }
    ensures last { (result ≡ 0) ⊎ IsSyncAt calls.now (result - 1) }
    ensures behind { list_any is_done_sync (drop result calls.now) ≡ false }
{
    let mut count = calls.len();
    while count > 0 {
        if calls[count - 1].is_done_sync() {
            return count;
        }
        count -= 1;
    }
    0
}
