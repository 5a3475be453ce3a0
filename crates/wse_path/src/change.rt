// Paths whose content or version changed.
use crate::items::{Bytes, Duplicate, Items};
use crate::memory::Memory;
use crate::path::RelPath;
use std::alloc::Global;

/// A path whose content changed. Content that isn't there is None.
#[derive(Debug, Drop)]
pub struct Change {
    pub path: RelPath,
    pub before: Option<Bytes>,
    pub after: Option<Bytes>,
}

impl Duplicate for Change {
    fn duplicate(&self, alloc: Global) -> Result<Change, Memory> {
        Ok(Change {
            path: self.path.duplicate(alloc)?,
            before: self.before.duplicate(alloc)?,
            after: self.after.duplicate(alloc)?,
        })
    }
}

/// Changed paths with their contents, in path order.
pub type Changes = Items<Change>;

/// A path with a number, such as its version.
#[derive(Debug, Drop)]
pub struct Numbered {
    pub path: RelPath,
    pub number: u32,
}

impl Duplicate for Numbered {
    fn duplicate(&self, alloc: Global) -> Result<Numbered, Memory> {
        Ok(Numbered {
            path: self.path.duplicate(alloc)?,
            number: self.number,
        })
    }
}

/// Paths with their versions, in path order.
pub type Bumps = Items<Numbered>;
