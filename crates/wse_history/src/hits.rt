// The limits of a state that a command other than an edit would leave.
ghost use Rattle.std.specs.Prelude.{◌≡◌, ◌+◌, true, List};
ghost use Rattle.std.specs.List.{list_any};
ghost use Rattle.std.specs.FinMap.{is_sorted};
ghost use Rattle.wse_path.specs.Order.{path_cmp};
ghost use Rattle.wse_element.specs.declared.effect.Effect.{Effect};
ghost use Rattle.wse_element.specs.Applicable.{sets_tree};
ghost use Rattle.wse_element.specs.Effects.{state_after};
ghost use Rattle.wse_apply.specs.Draft.{LeadTo};
ghost use Rattle.wse_apply.specs.Limit.{hit_above};
ghost use Rattle.wse_history.specs.Done.{pairs_of, with_versions};
ghost use Rattle.wse_history.specs.Limits.{hit_of};

use crate::history::History;
use crate::limits::hit_above;
use crate::versions::known_with;
use wse_apply::limit_hit_after;
use wse_path::{Change, Hit, Numbered, Which};

/// The limit that one more recorded command passes. Takes no memory.
pub(crate) fn serial_hit(history: &History) -> Option<Hit>
    ensures { result ≡ hit_above Which.Serial history.now.limits.serial (history.now.state.serial + 1) }
{
    let limits = history.limits();
    let serial = history.stacks().serial() + 1;
    hit_above(Which::Serial, limits.serial, serial)
}

/// The first limit that one more recorded command passes which sets the tree: the serial number, then what is known once these
/// paths have these versions, then those of the tree after the changes. Takes no memory.
pub(crate) fn set_hit(history: &History, changed: &[Numbered], changes: &[Change]) -> Option<Hit>
    requires { is_sorted path_cmp (pairs_of changed.now) ≡ true }
    ensures { (effects : List Effect) → list_any sets_tree effects ≡ true
        → (state_after history.now.state effects).versions ≡ with_versions changed.now history.now.state.versions
        → LeadTo history.now.state.files changes.now (state_after history.now.state effects).files
        → result ≡ hit_of history.now.limits effects (state_after history.now.state effects) }
{
    let limits = history.limits();
    let known = known_with(history.versions(), changed);
    let tree = limit_hit_after(limits, history.tree(), changes);
    serial_hit(history).or(hit_above(Which::Known, limits.known, known).or(tree))
}
