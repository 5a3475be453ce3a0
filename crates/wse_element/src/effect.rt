// What commands do to the history.
use crate::element::Element;
use crate::state::PartState;
use std::alloc::Global;
use wse_path::{Bytes, Duplicate, Items, Memory, RelPath};

/// One thing that a command does to the history, the tree or the versions. A journal's record holds all effects of one
/// command. This project's own rule.
#[derive(Drop)]
pub enum Effect {
    /// A new element is done.
    Push(Element),
    /// The element is undone.
    MoveBack {
        id: u64,
    },
    /// The element is redone.
    MoveForward {
        id: u64,
    },
    /// The element becomes one element for each of its live parts, with ids from `first` on.
    Split {
        id: u64,
        first: u64,
    },
    /// Parts at the path are no longer live: all of them where the reason is `Closed`, those of its future where it is
    /// `Incompatible`. `Live` is no reason.
    Drop {
        path: RelPath,
        reason: PartState,
    },
    /// The parts at the path aren't valid any more.
    Invalidate {
        path: RelPath,
    },
    /// The version of the path rises by that much.
    Bump {
        path: RelPath,
        by: u32,
    },
    /// The path has this content, or is absent.
    Set {
        path: RelPath,
        content: Option<Bytes>,
    },
}

/// The effects of one command, in order.
pub type Effects = Items<Effect>;

impl Duplicate for Effect {
    fn duplicate(&self, alloc: Global) -> Result<Effect, Memory> {
        match self {
            Effect::Push(element) => Ok(Effect::Push(element.duplicate(alloc)?)),
            Effect::MoveBack { id } => Ok(Effect::MoveBack { id: *id }),
            Effect::MoveForward { id } => Ok(Effect::MoveForward { id: *id }),
            Effect::Split { id, first } => Ok(Effect::Split {
                id: *id,
                first: *first,
            }),
            Effect::Drop { path, reason } => Ok(Effect::Drop {
                path: path.duplicate(alloc)?,
                reason: *reason,
            }),
            Effect::Invalidate { path } => Ok(Effect::Invalidate {
                path: path.duplicate(alloc)?,
            }),
            Effect::Bump { path, by } => Ok(Effect::Bump {
                path: path.duplicate(alloc)?,
                by: *by,
            }),
            Effect::Set { path, content } => Ok(Effect::Set {
                path: path.duplicate(alloc)?,
                content: content.duplicate(alloc)?,
            }),
        }
    }
}
