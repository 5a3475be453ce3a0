// The limits of the state that an edit would leave.
ghost use Rattle.std.specs.Prelude.{◌≡◌, All, true, IfOk};
ghost use Rattle.std.specs.Option.{option_or};
ghost use Rattle.std.specs.FinMap.{is_sorted};
ghost use Rattle.wse_path.specs.Order.{path_cmp};
ghost use Rattle.wse_element.specs.Effects.{state_after};
ghost use Rattle.wse_stacks.specs.Image.{IsSmall};
ghost use Rattle.wse_apply.specs.Limit.{hit_above};
ghost use Rattle.wse_history.specs.Edits.{edit_hit};
ghost use Rattle.wse_history.specs.Done.{pairs_of, with_versions};

use crate::history::History;
use crate::versions::known_with;
use std::alloc::Global;
use wse_element::Effect;
use wse_path::{Hit, Limits, Memory, Numbered, Which};

pub(crate) fn hit_above(which: Which, limit: u64, number: u64) -> Option<Hit>
    ensures { result ≡ hit_above which limit number }
{
    if number > limit {
        return Some(Hit {
            which,
            would_be: number,
        });
    }
    None
}

/// The first limit that these numbers pass: serial, then known, then weight.
fn first_hit(limits: &Limits, serial: u64, known: u64, weight: u64) -> Option<Hit>
    ensures { result ≡ option_or (hit_above Which.Serial limits.now.serial serial)
        (option_or (hit_above Which.Known limits.now.known known) (hit_above Which.Weight limits.now.weight weight)) }
{
    hit_above(Which::Serial, limits.serial, serial)
        .or(hit_above(Which::Known, limits.known, known))
        .or(hit_above(Which::Weight, limits.weight, weight))
}

/// The first limit that an edit with these effects passes, by which these paths have these versions.
pub(crate) fn edit_hit(
    alloc: Global,
    history: &History,
    effects: &[Effect],
    changed: &[Numbered],
) -> Result<Option<Hit>, Memory>
    requires small { All IsSmall effects.now }
    requires rises { is_sorted path_cmp (pairs_of changed.now) ≡ true }
    requires versions { (state_after history.now.state effects.now).versions ≡ with_versions changed.now history.now.state.versions }
    ensures { IfOk result (λ hit. hit ≡ edit_hit history.now.limits (state_after history.now.state effects.now)) }
{
    let limits = history.limits();
    let serial = history.stacks().serial() + 1;
    let known = known_with(history.versions(), changed);
    let weight = history.stacks().weight_after(alloc, effects)?;
    Ok(first_hit(limits, serial, known, weight))
}
