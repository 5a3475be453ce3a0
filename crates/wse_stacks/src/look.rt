// What is seen of the history of a path.
ghost use Rattle.std.specs.Prelude.{◌≡◌, ◌≢◌, ◌↔◌, ℕ, Bool, IsTrue, IfOk};
ghost use Rattle.wse_element.specs.Stacks.{past, future};
ghost use Rattle.wse_stacks.specs.Turns.{seen, look};

use crate::entry::Entry;
use std::alloc::Global;
use wse_path::{Memory, RelPath};

fn seen_past(entries: &[Entry], alloc: Global, path: &RelPath) -> Result<Vec<(u64, bool)>, Memory>
    ensures { IfOk result (λ all. all.items ≡ seen path.now (past entries.now path.now)) }
{
    let all = entries
        .iter()
        .filter(|entry| entry.element().is_done() && entry.element().is_live_at(path))
        .map(|entry| (entry.element().id(), entry.element().is_valid_at(path)))
        .collect(alloc)?;
    Ok(all)
}

fn seen_future(entries: &[Entry], alloc: Global, path: &RelPath) -> Result<Vec<(u64, bool)>, Memory>
    ensures { IfOk result (λ all. all.items ≡ seen path.now (future entries.now path.now)) }
{
    let all = entries
        .iter()
        .filter(|entry| !entry.element().is_done() && entry.element().is_live_at(path))
        .map(|entry| (entry.element().id(), entry.element().is_valid_at(path)))
        .collect(alloc)?;
    Ok(all)
}

fn is_same(first: &[(u64, bool)], second: &[(u64, bool)]) -> bool
    ensures { IsTrue result ↔ (first.now ≡ second.now) }
{
    first == second
}

/// Whether the path's history looks alike in both lists.
pub(crate) fn is_alike(
    old: &[Entry],
    new: &[Entry],
    alloc: Global,
    path: &RelPath,
) -> Result<bool, Memory>
    ensures { IfOk result (λ same. IsTrue same ↔ (look old.now path.now ≡ look new.now path.now)) }
{
    let past = is_same(&seen_past(old, alloc, path)?, &seen_past(new, alloc, path)?);
    let future = is_same(
        &seen_future(old, alloc, path)?,
        &seen_future(new, alloc, path)?,
    );
    Ok(past && future)
}
