// Paths at and under a path, and where they go when it moves.
ghost use Rattle.std.specs.Prelude.{◌≡◌, ◌⊎◌, ◌++◌, true, false, map, drop, IfOk, IfErr, OnOk};
ghost use Rattle.wse_path.specs.Path.{bytes_of};
ghost use Rattle.wse_resource.specs.Table.{files_within, is_within, moved};
ghost use Rattle.wse_resource.specs.Course.{is_past_limit};

use crate::refused::OpRefused;
use std::alloc::Global;
use wse_overlay::Contents;
use wse_path::{Duplicate, Files, Items, Memory, RelPath};

/// Whether the path is the other one, or under it.
pub fn is_within(path: &RelPath, other: &RelPath) -> bool
    ensures { result ≡ is_within path.now other.now }
{
    path.cmp(other).is_eq() || path.is_under(other)
}

/// The files at and under the path, in path order.
pub fn paths_within<C: Contents>(
    alloc: Global,
    contents: &C,
    path: &RelPath,
) -> Result<Files, Memory>
    ensures { IfOk result (λ paths. paths ≡ map (λ e. e.0) (files_within (C.files contents.now) path.now)) }
{
    if contents.get(path).is_none() {
        return contents.under(alloc, path);
    }
    let mut only = Vec::new(alloc);
    only.push(path.duplicate(alloc)?)?;
    Ok(Items::new(only))
}

/// Where a path at or under `from` goes when `from` becomes `to`.
pub fn moved_path(
    alloc: Global,
    from: &RelPath,
    to: &RelPath,
    path: &RelPath,
) -> Result<RelPath, OpRefused>
    ensures path { IfOk result (λ there. there ≡ moved from.now to.now path.now) }
    ensures fits { OnOk result (is_past_limit from.now to.now path.now ≡ false) }
    ensures refused { IfErr result (λ why. (why ≡ OpRefused.Memory)
        ⊎ ((is_past_limit from.now to.now path.now ≡ true) × (why ≡ OpRefused.PathLimit path.now))) }
{
    let mut segments = Vec::new(alloc);
    push_segments(alloc, &mut segments, to, 0)?;
    push_segments(alloc, &mut segments, path, from.depth())?;
    match RelPath::new(segments) {
        Ok(there) => Ok(there),
        Err(_) => Err(OpRefused::PathLimit {
            from: path.duplicate(alloc)?,
        }),
    }
}

/// Appends the path's segments from that index on.
fn push_segments(
    alloc: Global,
    segments: &mut Vec<String>,
    path: &RelPath,
    start: usize,
) -> Result<(), Memory>
    ensures { OnOk result (bytes_of segments.new.items ≡ bytes_of segments.old.items ++ drop start path.now) }
{
    for index in start..path.depth() {
        segments.push(String::from_str(alloc, path.segment(index).unwrap())?)?;
    }
    Ok(())
}
