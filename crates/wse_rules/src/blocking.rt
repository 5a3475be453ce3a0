// The files at which an element can't be moved, each list for a cause of its own.
ghost use Rattle.std.specs.Prelude.{◌≡◌, ◌∷◌, [], IfOk};
ghost use Rattle.wse_locks.specs.Locks.{is_held};
ghost use Rattle.wse_rules.specs.Ruling.{all_paths, removed, changed, locked, invalid};

use crate::closest::is_closest;
use std::alloc::Global;
use wse_element::Element;
use wse_locks::Locks;
use wse_path::{Direction, Duplicate, Files, Memory, RelPath};
use wse_stacks::Stacks;

/// Whether another participant holds the path. Takes no memory.
pub(crate) fn is_held(locks: &Locks, by: u32, path: &RelPath) -> bool
    ensures { result ≡ is_held locks.now.entries by path.now }
{
    match locks.holder(path) {
        Some(holder) => holder != by,
        None => false,
    }
}

/// The paths of the parts that are no longer live.
pub(crate) fn removed(alloc: Global, element: &Element) -> Result<Files, Memory>
    ensures { IfOk result (λ files. files ≡ removed element.now) }
{
    let mut files = Vec::new(alloc);
    for part in element.parts() {
        if !part.is_live() {
            files.push(part.path().duplicate(alloc)?)?;
        }
    }
    Ok(Files::new(files))
}

/// The paths of the live parts at which another element is the closest.
pub(crate) fn changed(
    alloc: Global,
    stacks: &Stacks,
    direction: Direction,
    element: &Element,
) -> Result<Files, Memory>
    ensures { IfOk result (λ files. files ≡ changed direction stacks.now.state.records element.now) }
{
    let mut files = Vec::new(alloc);
    for part in element.parts() {
        if part.is_live() && !is_closest(stacks, direction, element.id(), part.path()) {
            files.push(part.path().duplicate(alloc)?)?;
        }
    }
    Ok(Files::new(files))
}

/// The paths of the live parts that another participant holds.
pub(crate) fn locked(
    alloc: Global,
    locks: &Locks,
    by: u32,
    element: &Element,
) -> Result<Files, Memory>
    ensures { IfOk result (λ files. files ≡ locked locks.now.entries by element.now) }
{
    let mut files = Vec::new(alloc);
    for part in element.parts() {
        if part.is_live() && is_held(locks, by, part.path()) {
            files.push(part.path().duplicate(alloc)?)?;
        }
    }
    Ok(Files::new(files))
}

/// The paths of the live parts that are invalid.
pub(crate) fn invalid(alloc: Global, element: &Element) -> Result<Files, Memory>
    ensures { IfOk result (λ files. files ≡ invalid element.now) }
{
    let mut files = Vec::new(alloc);
    for part in element.parts() {
        if part.is_live() && !part.is_valid() {
            files.push(part.path().duplicate(alloc)?)?;
        }
    }
    Ok(Files::new(files))
}

/// The paths of all parts.
pub(crate) fn all_paths(alloc: Global, element: &Element) -> Result<Files, Memory>
    ensures { IfOk result (λ files. files ≡ all_paths element.now) }
{
    let mut files = Vec::with_capacity(alloc, element.parts().len())?;
    for part in element.parts() {
        let path = part.path().duplicate(alloc)?;
        files.push(path)?;
    }
    Ok(Files::new(files))
}

/// The one path.
pub(crate) fn only(alloc: Global, path: &RelPath) -> Result<Files, Memory>
    ensures { IfOk result (λ files. files ≡ path.now ∷ []) }
{
    let mut files = Vec::with_capacity(alloc, 1)?;
    files.push(path.duplicate(alloc)?)?;
    Ok(Files::new(files))
}
