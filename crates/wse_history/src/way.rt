// Files in the way of contents that are to come.
ghost use Rattle.std.specs.Prelude.{◌≡◌, [], ◌∷◌, ◌&&◌, ◌||◌, not, IfOk, OnOk};
ghost use Rattle.std.specs.List.{list_any};
ghost use Rattle.std.specs.BTreeSet.{contains};
ghost use Rattle.std.specs.Ordering.{eq_by_cmp};
ghost use Rattle.wse_path.specs.Path.{Path, is_under};
ghost use Rattle.wse_path.specs.Order.{path_cmp};
ghost use Rattle.wse_path.specs.Tree.{is_present};
ghost use Rattle.wse_history.specs.Marks.{is_marked, is_near_marked, marked_in_the_way};

use std::alloc::Global;
use std::collections::BTreeSet;
use wse_path::{Duplicate, Files, Memory, RelPath, Tree};

/// Keeps the path.
fn keep(found: &mut BTreeSet<RelPath>, path: RelPath) -> Result<(), Memory>
    ensures { OnOk result ((q : Path) → contains path_cmp found.new q ≡ (eq_by_cmp path_cmp path q || contains path_cmp found.old q)) }
{
    found.insert(path)?;
    Ok(())
}

/// Keeps the paths.
fn keep_all(found: &mut BTreeSet<RelPath>, paths: Vec<RelPath>) -> Result<(), Memory>
    ensures { OnOk result ((q : Path) → contains path_cmp found.new q ≡ (list_any (λ x. eq_by_cmp path_cmp q x) paths.items || contains path_cmp found.old q)) }
{
    for path in paths {
        keep(found, path)?;
    }
    Ok(())
}

/// Keeps the file above the path.
fn keep_above(
    found: &mut BTreeSet<RelPath>,
    alloc: Global,
    tree: &Tree,
    path: &RelPath,
) -> Result<(), Memory>
    ensures { OnOk result ((q : Path) → contains path_cmp found.new q
        ≡ ((is_present tree.now.files q && is_under path.now q) || contains path_cmp found.old q)) }
{
    match tree.file_above(path) {
        Some(file) => keep(found, file.duplicate(alloc)?),
        None => Ok(()),
    }
}

/// Keeps the files under the path.
fn keep_under(
    found: &mut BTreeSet<RelPath>,
    alloc: Global,
    tree: &Tree,
    path: &RelPath,
) -> Result<(), Memory>
    ensures { OnOk result ((q : Path) → contains path_cmp found.new q
        ≡ ((is_present tree.now.files q && is_under q path.now) || contains path_cmp found.old q)) }
{
    let under = tree.under(alloc, path)?;
    keep_all(found, under.into_vec())
}

/// Keeps the files above and under the path, if it is made present.
fn keep_near(
    found: &mut BTreeSet<RelPath>,
    alloc: Global,
    tree: &Tree,
    mark: &(RelPath, bool),
) -> Result<(), Memory>
    ensures { OnOk result ((q : Path) → contains path_cmp found.new q
        ≡ ((is_present tree.now.files q && is_near_marked (mark.now ∷ []) q) || contains path_cmp found.old q)) }
{
    if !mark.1 {
        return Ok(());
    }
    keep_under(found, alloc, tree, &mark.0)?;
    keep_above(found, alloc, tree, &mark.0)
}

/// The files above and under the paths that are made present.
fn near_all(
    alloc: Global,
    tree: &Tree,
    marks: &[(RelPath, bool)],
) -> Result<BTreeSet<RelPath>, Memory>
    ensures { IfOk result (λ found. (q : Path) → contains path_cmp found q ≡ (is_present tree.now.files q && is_near_marked marks.now q)) }
{
    let mut found = BTreeSet::new(alloc);
    for mark in marks {
        keep_near(&mut found, alloc, tree, mark)?;
    }
    Ok(found)
}

/// Takes the path out of those that were found.
fn leave_out_one(found: &mut BTreeSet<RelPath>, path: &RelPath)
    ensures { (q : Path) → contains path_cmp found.new q ≡ (not (eq_by_cmp path_cmp path.now q) && contains path_cmp found.old q) }
{
    let _ = found.remove(path);
}

/// Takes the paths that are set out of those that were found.
fn leave_out(found: &mut BTreeSet<RelPath>, marks: &[(RelPath, bool)])
    ensures { (q : Path) → contains path_cmp found.new q ≡ (not (is_marked marks.now q) && contains path_cmp found.old q) }
{
    for mark in marks {
        leave_out_one(found, &mark.0);
    }
}

/// The paths in path order.
fn listed(alloc: Global, found: BTreeSet<RelPath>) -> Result<Files, Memory>
    ensures { IfOk result (λ files. files ≡ found.keys) }
{
    let paths: Vec<RelPath> = found.into_iter().collect(alloc)?;
    Ok(Files::new(paths))
}

/// Of paths that are to be set, each with whether it is made present: the files outside these paths that are above or under
/// one that is made present, in path order. It costs a search for each path.
pub(crate) fn in_the_way(
    alloc: Global,
    tree: &Tree,
    marks: &[(RelPath, bool)],
) -> Result<Files, Memory>
    ensures { IfOk result (λ files. files ≡ marked_in_the_way tree.now.files marks.now) }
{
    let mut found = near_all(alloc, tree, marks)?;
    leave_out(&mut found, marks);
    let _ = found.len();
    listed(alloc, found)
}
