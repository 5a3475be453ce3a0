// The paths whose history looks otherwise in another list.
ghost use Rattle.std.specs.Prelude.{◌≡◌, IfOk, OnOk};
ghost use Rattle.wse_stacks.specs.Turns.{IsNoted, AreNoted};

use crate::entry::Entry;
use crate::look::is_alike;
use std::alloc::Global;
use wse_path::{Duplicate, Memory, PathMap, RelPath};

// Notes the path as turned, if its history looks otherwise in the new list.
fn note(
    noted: &mut PathMap<u32>,
    old: &[Entry],
    new: &[Entry],
    alloc: Global,
    path: &RelPath,
) -> Result<(), Memory>
    ensures { OnOk result (IsNoted old.now new.now path.now noted.old.entries noted.new.entries) }
{
    if !is_alike(old, new, alloc, path)? {
        noted.put(path.duplicate(alloc)?, 1)?;
    }
    Ok(())
}

/// Those of the paths whose history looks otherwise in the new list, each once.
pub(crate) fn turned(
    old: &[Entry],
    new: &[Entry],
    alloc: Global,
    paths: &[RelPath],
) -> Result<PathMap<u32>, Memory>
    ensures { IfOk result (λ noted. AreNoted old.now new.now paths.now noted.entries) }
{
    let mut noted = PathMap::new(alloc);
    for path in paths {
        note(&mut noted, old, new, alloc, path)?;
    }
    Ok(noted)
}

/// Equal entries.
pub(crate) fn copies(
    alloc: Global,
    entries: &[(RelPath, u32)],
) -> Result<Vec<(RelPath, u32)>, Memory>
    ensures { IfOk result (λ all. all.items ≡ entries.now) }
{
    let mut all = Vec::with_capacity(alloc, entries.len())?;
    for entry in entries {
        all.push((entry.0.duplicate(alloc)?, entry.1))?;
    }
    Ok(all)
}
