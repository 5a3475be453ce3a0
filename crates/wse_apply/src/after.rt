// The limits of a tree after changes.
ghost use Rattle.std.specs.Prelude.{◌≡◌, None, true};
ghost use Rattle.wse_path.specs.Limits.{standard};
ghost use Rattle.wse_path.specs.Tree.{Entries};
ghost use Rattle.wse_apply.specs.Limit.{are_within, limit_hit};
ghost use Rattle.wse_apply.specs.Draft.{LeadTo};

use crate::sizes::{Sizes, hit_after};
use wse_path::{Change, Hit, Limits, Tree};

/// The first limit that the tree passes after the changes, where it passes none before them. It costs about the changes, and
/// takes no memory.
pub fn limit_hit_after(limits: &Limits, tree: &Tree, changes: &[Change]) -> Option<Hit>
    requires within { are_within limits.now standard ≡ true }
    requires fits { limit_hit limits.now tree.now.files ≡ None }
    ensures { (new : Entries) → LeadTo tree.now.files changes.now new → result ≡ limit_hit limits.now new }
{
    let sizes = Sizes::of(tree).changed(changes);
    hit_after(limits, sizes, changes)
}
