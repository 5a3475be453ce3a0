// Whether a part still counts.
use std::alloc::Global;
use wse_path::{Duplicate, Memory};

/// Whether a part of an element can still be undone or redone. This project's own rule.
#[derive(Clone, Copy, PartialEq, Eq)]
pub enum PartState {
    /// It can.
    Live,
    /// Its path's history was forgotten, or could not be followed any more.
    Closed,
    /// It wasn't done, and a later command changed its path.
    Incompatible,
}

impl Duplicate for PartState {
    fn duplicate(&self, _alloc: Global) -> Result<PartState, Memory> {
        Ok(*self)
    }
}
