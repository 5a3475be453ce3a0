// The paths at which elements are live.
ghost use Rattle.std.specs.Prelude.{◌≡◌, ◌||◌, IfOk, OnOk};
ghost use Rattle.std.specs.List.{list_any};
ghost use Rattle.std.specs.BTreeSet.{contains};
ghost use Rattle.wse_path.specs.Path.{Path};
ghost use Rattle.wse_path.specs.Order.{path_cmp};
ghost use Rattle.wse_element.specs.Live.{is_live_part_at, is_live_at};
ghost use Rattle.wse_stacks.specs.Paths.{AreLivePaths};

use crate::entry::Entry;
use std::alloc::Global;
use std::collections::BTreeSet;
use wse_element::Part;
use wse_path::{Duplicate, Files, Memory, RelPath};

fn put_live(found: &mut BTreeSet<RelPath>, alloc: Global, part: &Part) -> Result<(), Memory>
    ensures { OnOk result ((p : Path) → contains path_cmp found.new p ≡ (contains path_cmp found.old p || is_live_part_at p part.now)) }
{
    if part.is_live() {
        found.insert(part.path().duplicate(alloc)?)?;
    }
    Ok(())
}

fn put_each(found: &mut BTreeSet<RelPath>, alloc: Global, parts: &[Part]) -> Result<(), Memory>
    ensures { OnOk result ((p : Path) → contains path_cmp found.new p ≡ (contains path_cmp found.old p || list_any (is_live_part_at p) parts.now)) }
{
    for part in parts {
        put_live(found, alloc, part)?;
    }
    Ok(())
}

fn put_all(found: &mut BTreeSet<RelPath>, alloc: Global, entries: &[Entry]) -> Result<(), Memory>
    ensures { OnOk result ((p : Path) → contains path_cmp found.new p ≡ (contains path_cmp found.old p || list_any (is_live_at p) entries.now)) }
{
    for entry in entries {
        put_each(found, alloc, entry.element().parts())?;
    }
    Ok(())
}

/// The paths in path order.
fn listed(alloc: Global, found: BTreeSet<RelPath>) -> Result<Files, Memory>
    ensures { IfOk result (λ files. files ≡ found.keys) }
{
    let paths: Vec<RelPath> = found.into_iter().collect(alloc)?;
    Ok(Files::new(paths))
}

/// The paths at which one of the elements is live, in path order.
pub(crate) fn live_paths(entries: &[Entry], alloc: Global) -> Result<Files, Memory>
    ensures { IfOk result (AreLivePaths entries.now) }
{
    let mut found = BTreeSet::new(alloc);
    put_all(&mut found, alloc, entries)?;
    let _ = found.len();
    listed(alloc, found)
}
