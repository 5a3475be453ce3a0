// What a command is going to do.
use crate::effect::Effects;
use std::alloc::Global;
use wse_path::{Changes, Duplicate, Memory};

/// The effects of a command, and what they change in the tree. This project's own rule.
#[derive(Drop)]
pub struct Plan {
    pub effects: Effects,
    pub changes: Changes,
}

impl Duplicate for Plan {
    fn duplicate(&self, alloc: Global) -> Result<Plan, Memory> {
        Ok(Plan {
            effects: self.effects.duplicate(alloc)?,
            changes: self.changes.duplicate(alloc)?,
        })
    }
}
