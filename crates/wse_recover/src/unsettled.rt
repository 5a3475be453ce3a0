// A last record that isn't settled.
ghost use Rattle.std.specs.Prelude.{IfOk};
ghost use Rattle.wse_recover.specs.Sets.{MayEnter};
ghost use Rattle.wse_recover.specs.Unsettled.{IsKeptOf};

use crate::sets::sets_of;
use std::alloc::Global;
use wse_element::Effects;
use wse_path::{Bytes, Duplicate, Items, Memory, RelPath};
use wse_stacks::Stacks;

/// A last record that isn't settled: it was written, and its files may be changed, or not yet.
#[derive(Drop)]
pub struct Unsettled {
    /// Its effects.
    pub effects: Effects,
    /// The paths that they set in the tree, in path order, each with what it has then. None: the path is absent then.
    pub sets: Items<(RelPath, Option<Bytes>)>,
}

/// What is kept of a record with these effects for finishing it, before they are entered.
pub(crate) fn kept_of(
    alloc: Global,
    stacks: &Stacks,
    effects: &Effects,
    settled: bool,
) -> Result<Option<Unsettled>, Memory>
    requires may { MayEnter stacks.now.state effects.now }
    ensures { IfOk result (IsKeptOf settled stacks.now.state effects.now) }
{
    if settled {
        return Ok(None);
    }
    let sets = sets_of(alloc, stacks, effects.as_slice())?;
    let effects = effects.duplicate(alloc)?;
    Ok(Some(Unsettled { effects, sets }))
}
