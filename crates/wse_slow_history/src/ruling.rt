// What becomes of an undo or a redo, over the whole list of elements.
ghost use Rattle.std.specs.Prelude.{◌≡◌, ◌∷◌, [], IfOk};
ghost use Rattle.std.specs.Option.{option_copied};
ghost use Rattle.wse_locks.specs.Locks.{is_held};
ghost use Rattle.wse_element.specs.Applicable.{is_closest};
ghost use Rattle.wse_rules.specs.Ruling.{closest, one_ruling, all_paths, removed, changed, locked, invalid, blocked, blocked_ruling, free_ruling, across_ruling, choice_for, ruling};

use std::alloc::Global;
use wse_element::Element;
use wse_locks::Locks;
use wse_path::{Choice, Direction, Duplicate, Files, Memory, RelPath};
use wse_plain::{closest_future, closest_past};
use wse_rules::{Cause, Ruling};

/// The element that an undo or a redo at the path is about.
pub(crate) fn closest<'a>(
    direction: Direction,
    records: &'a [Element],
    path: &RelPath,
) -> Option<&'a Element>
    ensures { option_copied result ≡ closest direction records.now path.now }
{
    match direction {
        Direction::Back => closest_past(records, path),
        Direction::Forward => closest_future(records, path),
    }
}

/// Whether the element with the id is the closest at the path.
fn is_closest(direction: Direction, records: &[Element], path: &RelPath, id: u64) -> bool
    ensures { result ≡ is_closest id (closest direction records.now path.now) }
{
    match closest(direction, records, path) {
        Some(element) => element.id() == id,
        None => false,
    }
}

/// Whether another participant holds the path.
fn is_held(locks: &Locks, by: u32, path: &RelPath) -> bool
    ensures { result ≡ is_held locks.now.entries by path.now }
{
    match locks.holder(path) {
        Some(holder) => holder != by,
        None => false,
    }
}

/// The one path.
fn only(alloc: Global, path: &RelPath) -> Result<Files, Memory>
    ensures { IfOk result (λ files. files ≡ path.now ∷ []) }
{
    let mut files = Vec::with_capacity(alloc, 1)?;
    files.push(path.duplicate(alloc)?)?;
    Ok(Files::new(files))
}

/// An element of one part: it is moved, unless its part is invalid, or another participant holds the path.
pub(crate) fn one_ruling(
    alloc: Global,
    locks: &Locks,
    by: u32,
    path: &RelPath,
    element: &Element,
) -> Result<Ruling, Memory>
    ensures { IfOk result (λ r. r ≡ one_ruling locks.now.entries by path.now element.now) }
{
    if !element.is_valid_at(path) {
        let files = only(alloc, path)?;
        let dropped = only(alloc, path)?;
        return Ok(Ruling::Flush {
            cause: Cause::Invalid,
            files,
            dropped,
        });
    }
    if is_held(locks, by, path) {
        let files = only(alloc, path)?;
        return Ok(Ruling::Locked { files });
    }
    Ok(Ruling::Go { id: element.id() })
}

/// The paths of all parts.
pub(crate) fn all_paths(alloc: Global, element: &Element) -> Result<Files, Memory>
    ensures { IfOk result (λ files. files ≡ all_paths element.now) }
{
    let mut files = Vec::new(alloc);
    for part in element.parts() {
        files.push(part.path().duplicate(alloc)?)?;
    }
    Ok(Files::new(files))
}

/// The paths of the parts that aren't live.
fn removed(alloc: Global, element: &Element) -> Result<Files, Memory>
    ensures { IfOk result (λ files. files ≡ removed element.now) }
{
    let mut files = Vec::new(alloc);
    for part in element.parts() {
        if !part.is_live() {
            files.push(part.path().duplicate(alloc)?)?;
        }
    }
    Ok(Files::new(files))
}

/// The paths of the live parts at which another element is the closest.
fn changed(
    alloc: Global,
    direction: Direction,
    records: &[Element],
    element: &Element,
) -> Result<Files, Memory>
    ensures { IfOk result (λ files. files ≡ changed direction records.now element.now) }
{
    let mut files = Vec::new(alloc);
    for part in element.parts() {
        if part.is_live() && !is_closest(direction, records, part.path(), element.id()) {
            files.push(part.path().duplicate(alloc)?)?;
        }
    }
    Ok(Files::new(files))
}

/// The paths of the live parts that another participant holds.
fn locked(alloc: Global, locks: &Locks, by: u32, element: &Element) -> Result<Files, Memory>
    ensures { IfOk result (λ files. files ≡ locked locks.now.entries by element.now) }
{
    let mut files = Vec::new(alloc);
    for part in element.parts() {
        if part.is_live() && is_held(locks, by, part.path()) {
            files.push(part.path().duplicate(alloc)?)?;
        }
    }
    Ok(Files::new(files))
}

/// The paths of the live parts that are invalid.
fn invalid(alloc: Global, element: &Element) -> Result<Files, Memory>
    ensures { IfOk result (λ files. files ≡ invalid element.now) }
{
    let mut files = Vec::new(alloc);
    for part in element.parts() {
        if part.is_live() && !part.is_valid() {
            files.push(part.path().duplicate(alloc)?)?;
        }
    }
    Ok(Files::new(files))
}

/// A blocked element is split where it can be, and else all its files lose their history.
fn blocked_ruling(
    alloc: Global,
    element: &Element,
    cause: Cause,
    files: Files,
) -> Result<Ruling, Memory>
    ensures { IfOk result (λ r. r ≡ blocked_ruling (record { cause = cause; files = files }) element.now) }
{
    if element.splits() {
        let id = element.id();
        return Ok(Ruling::Split { id, cause, files });
    }
    let dropped = all_paths(alloc, element)?;
    Ok(Ruling::Flush {
        cause,
        files,
        dropped,
    })
}

/// An element that isn't blocked: only one that can be split asks for a choice.
fn free_ruling(alloc: Global, choice: Choice, element: &Element) -> Ruling
    ensures { result ≡ free_ruling choice element.now }
{
    let id = element.id();
    if !element.splits() {
        return Ruling::Go { id };
    }
    match choice {
        Choice::All => Ruling::Go { id },
        Choice::This => Ruling::Split {
            id,
            cause: Cause::Chosen,
            files: Files::new(Vec::new(alloc)),
        },
        Choice::Cancel => Ruling::Cancelled { id },
        Choice::Turned { files } => Ruling::Split {
            id,
            cause: Cause::Meantime,
            files,
        },
    }
}

/// An element of several parts: the first list that names a file decides, and then the choice.
fn across_ruling(
    alloc: Global,
    direction: Direction,
    records: &[Element],
    locks: &Locks,
    by: u32,
    choice: Choice,
    element: &Element,
) -> Result<Ruling, Memory>
    ensures { IfOk result (λ r. r ≡ across_ruling (blocked direction records.now locks.now.entries by element.now) choice element.now) }
{
    let files = removed(alloc, element)?;
    if !files.is_empty() {
        return blocked_ruling(alloc, element, Cause::Removed, files);
    }
    let files = changed(alloc, direction, records, element)?;
    if !files.is_empty() {
        return blocked_ruling(alloc, element, Cause::Changed, files);
    }
    let files = locked(alloc, locks, by, element)?;
    if !files.is_empty() {
        return blocked_ruling(alloc, element, Cause::Locked, files);
    }
    let files = invalid(alloc, element)?;
    if !files.is_empty() {
        return blocked_ruling(alloc, element, Cause::Invalid, files);
    }
    Ok(free_ruling(alloc, choice, element))
}

/// A redo asks nothing.
fn choice_for(alloc: Global, direction: Direction, choice: &Choice) -> Result<Choice, Memory>
    ensures { IfOk result (λ c. c ≡ choice_for direction choice.now) }
{
    match (direction, choice) {
        (Direction::Forward, _) => Ok(Choice::All),
        (Direction::Back, Choice::All) => Ok(Choice::All),
        (Direction::Back, Choice::This) => Ok(Choice::This),
        (Direction::Back, Choice::Cancel) => Ok(Choice::Cancel),
        (Direction::Back, Choice::Turned { files }) => Ok(Choice::Turned {
            files: files.duplicate(alloc)?,
        }),
    }
}

/// The verdict on an undo or a redo at the path by the participant.
pub(crate) fn ruling(
    alloc: Global,
    direction: Direction,
    records: &[Element],
    locks: &Locks,
    by: u32,
    path: &RelPath,
    choice: &Choice,
) -> Result<Ruling, Memory>
    ensures { IfOk result (λ r. r ≡ ruling direction records.now locks.now.entries by path.now choice.now) }
{
    let Some(element) = closest(direction, records, path) else {
        return Ok(Ruling::Nothing);
    };
    if element.parts().len() < 2 {
        return one_ruling(alloc, locks, by, path, element);
    }
    let choice = choice_for(alloc, direction, choice)?;
    across_ruling(alloc, direction, records, locks, by, choice, element)
}
