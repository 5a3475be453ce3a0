// What is prepared for a list of effects.
ghost use Rattle.std.specs.Prelude.{◌≡◌, ◌^◌, ◌<◌, IfOk, None};
ghost use Rattle.std.specs.List.{AllByRecursion};
ghost use Rattle.wse_element.specs.Laws.{PushesParts};
ghost use Rattle.wse_stacks.specs.Draft.{next_drafts, first_stop};

use crate::draft::Draft;
use crate::records::Records;
use crate::remembered::Remembered;
use std::alloc::Global;
use wse_element::Effect;
use wse_path::{Memory, RelPath};

/// Which list of effects it is, the elements and the next free id that it leaves, and the paths whose history looks otherwise then.
#[derive(Drop)]
pub(crate) struct Prepared {
    pub(crate) effects: Remembered,
    pub(crate) records: Records,
    pub(crate) next_id: u64,
    pub(crate) turned: Vec<(RelPath, u32)>,
}

/// Makes the draft what the effects leave, and answers the place of the first that isn't applicable.
pub(crate) fn try_each(
    draft: &mut Draft,
    alloc: Global,
    effects: &[Effect],
) -> Result<Option<usize>, Memory>
    requires small { draft.old.state.next_id < 2 ^ 63 }
    ensures stop { IfOk result (λ at. at ≡ first_stop draft.old effects.now) }
    ensures after { IfOk result (λ at. at ≡ None → draft.new ≡ next_drafts draft.old effects.now) }
    ensures parts { IfOk result (λ at. at ≡ None → AllByRecursion PushesParts effects.now) }
{
    for at in 0..effects.len() {
        if !draft.try_next(alloc, &effects[at])? {
            return Ok(Some(at));
        }
    }
    Ok(None)
}
