// The paths whose history an effect may change.
ghost use Rattle.std.specs.Prelude.{◌≡◌, [], ◌∷◌, ◌++◌, map, OnOk};
ghost use Rattle.std.specs.Option.{option_map_or};
ghost use Rattle.wse_element.specs.Stacks.{record_of};
ghost use Rattle.wse_stacks.specs.Draft.{paths_of, touched_by};

use crate::entry::Entry;
use crate::search::record_of;
use std::alloc::Global;
use wse_element::{Effect, Part};
use wse_path::{Duplicate, Memory, RelPath};

fn push_path(paths: &mut Vec<RelPath>, alloc: Global, path: &RelPath) -> Result<(), Memory>
    ensures { OnOk result (paths.new.items ≡ paths.old.items ++ path.now ∷ []) }
{
    paths.push(path.duplicate(alloc)?)?;
    Ok(())
}

fn push_paths(paths: &mut Vec<RelPath>, alloc: Global, parts: &[Part]) -> Result<(), Memory>
    ensures { OnOk result (paths.new.items ≡ paths.old.items ++ map (λ part. part.path) parts.now) }
{
    for part in parts {
        push_path(paths, alloc, part.path())?;
    }
    Ok(())
}

fn push_paths_of(
    paths: &mut Vec<RelPath>,
    alloc: Global,
    entries: &[Entry],
    id: u64,
) -> Result<(), Memory>
    ensures { OnOk result (paths.new.items ≡ paths.old.items ++ option_map_or paths_of (record_of entries.now id) []) }
{
    match record_of(entries, id) {
        Some(element) => push_paths(paths, alloc, element.parts()),
        None => Ok(()),
    }
}

/// Puts the paths behind the others.
pub(crate) fn push_touched(
    paths: &mut Vec<RelPath>,
    alloc: Global,
    entries: &[Entry],
    effect: &Effect,
) -> Result<(), Memory>
    ensures { OnOk result (paths.new.items ≡ paths.old.items ++ touched_by entries.now effect.now) }
{
    match effect {
        Effect::Push(element) => push_paths(paths, alloc, element.parts()),
        Effect::MoveBack { id } | Effect::MoveForward { id } => push_paths_of(
            paths, alloc, entries, *id,
        ),
        Effect::Split { id, .. } => push_paths_of(paths, alloc, entries, *id),
        Effect::Drop { path, .. } | Effect::Invalidate { path } => push_path(paths, alloc, path),
        Effect::Bump { .. } | Effect::Set { .. } => Ok(()),
    }
}
