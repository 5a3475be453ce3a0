// The versions that commands give.
ghost use Rattle.std.specs.Prelude.{◌≡◌, ◌+◌, ◌-◌, ◌^◌, ◌≤◌, All, true, IfOk};
ghost use Rattle.std.specs.FinMap.{is_sorted};
ghost use Rattle.wse_path.specs.Order.{path_cmp};
ghost use Rattle.wse_path.specs.Versions.{version_of, known};
ghost use Rattle.wse_history.specs.Done.{pairs_of, AreRises, raised, with_versions, new_known};
ghost use Rattle.wse_history.specs.History.{HasNoZero};

use crate::history::History;
use std::alloc::Global;
use wse_path::{Bumps, Duplicate, Memory, Numbered, RelPath, Versions};

/// The paths whose version rises, with their new versions.
fn raised(alloc: Global, versions: &Versions, bumps: &[Numbered]) -> Result<Bumps, Memory>
    requires fits { All (λ b. version_of versions.now.entries b.path + b.number ≤ 2 ^ 32 - 1) bumps.now }
    ensures { IfOk result (λ changed. changed ≡ raised versions.now.entries bumps.now) }
{
    let mut changed = Vec::new(alloc);
    for bump in bumps {
        let path = bump.path.duplicate(alloc)?;
        let number = versions.get(&bump.path) + bump.number;
        changed.push(Numbered { path, number })?;
    }
    Ok(Bumps::new(changed))
}

/// The same of the history's versions.
pub(crate) fn changed(alloc: Global, history: &History, bumps: &[Numbered]) -> Result<Bumps, Memory>
    requires { AreRises bumps.now }
    ensures { IfOk result (λ changed. changed ≡ raised history.now.state.versions bumps.now) }
{
    let _ = history.limits();
    raised(alloc, history.versions(), bumps)
}

/// What the path counts for where it has no version yet, and else nothing.
fn new_known(versions: &Versions, path: &RelPath) -> u64
    ensures { result ≡ new_known versions.now.entries path.now }
{
    if versions.get(path) == 0 {
        32 + path.text_len() as u64
    } else {
        0
    }
}

/// What the versions count for once these paths have theirs. Takes no memory.
pub(crate) fn known_with(versions: &Versions, changed: &[Numbered]) -> u64
    requires there { HasNoZero versions.now.entries }
    requires rises { is_sorted path_cmp (pairs_of changed.now) ≡ true }
    ensures { result ≡ known (with_versions changed.now versions.now.entries) }
{
    let mut known = versions.known();
    for one in changed {
        known = known.saturating_add(new_known(versions, &one.path));
    }
    known
}
