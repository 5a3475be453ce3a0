// What an effect sets in the tree.
ghost use Rattle.std.specs.Prelude.{◌≡◌, [], ◌∷◌, IfOk};
ghost use Rattle.std.specs.Option.{option_map_or};
ghost use Rattle.wse_element.specs.Stacks.{record_of};
ghost use Rattle.wse_element.specs.Effects.{old_contents, new_contents, contents_set};

use crate::entry::Entry;
use crate::search::record_of;
use std::alloc::Global;
use wse_element::{Effect, Element};
use wse_path::{Bytes, Duplicate, Memory, RelPath};

/// Paths, each with the content that it gets: None where no file is to be.
type Contents = Vec<(RelPath, Option<Bytes>)>;

fn old_contents(element: &Element, alloc: Global) -> Result<Contents, Memory>
    ensures { IfOk result (λ all. all.items ≡ old_contents element.now) }
{
    let mut all = Vec::with_capacity(alloc, element.parts().len())?;
    for part in element.parts() {
        all.push((part.path().duplicate(alloc)?, part.old_bytes(alloc)?))?;
    }
    Ok(all)
}

fn new_contents(element: &Element, alloc: Global) -> Result<Contents, Memory>
    ensures { IfOk result (λ all. all.items ≡ new_contents element.now) }
{
    let mut all = Vec::with_capacity(alloc, element.parts().len())?;
    for part in element.parts() {
        all.push((part.path().duplicate(alloc)?, part.new_bytes(alloc)?))?;
    }
    Ok(all)
}

// What an undo of the element sets, if it is there.
fn contents_before(entries: &[Entry], alloc: Global, id: u64) -> Result<Contents, Memory>
    ensures { IfOk result (λ all. all.items ≡ option_map_or old_contents (record_of entries.now id) []) }
{
    match record_of(entries, id) {
        Some(element) => old_contents(element, alloc),
        None => Ok(Vec::new(alloc)),
    }
}

// And what a redo sets.
fn contents_after(entries: &[Entry], alloc: Global, id: u64) -> Result<Contents, Memory>
    ensures { IfOk result (λ all. all.items ≡ option_map_or new_contents (record_of entries.now id) []) }
{
    match record_of(entries, id) {
        Some(element) => new_contents(element, alloc),
        None => Ok(Vec::new(alloc)),
    }
}

fn only(alloc: Global, path: &RelPath, content: &Option<Bytes>) -> Result<Contents, Memory>
    ensures { IfOk result (λ all. all.items ≡ (path.now, content.now) ∷ []) }
{
    let mut all = Vec::with_capacity(alloc, 1)?;
    all.push((path.duplicate(alloc)?, content.duplicate(alloc)?))?;
    Ok(all)
}

/// The paths that the effect sets, each with the content that it has then.
pub(crate) fn contents_set(
    entries: &[Entry],
    alloc: Global,
    effect: &Effect,
) -> Result<Contents, Memory>
    ensures { IfOk result (λ all. all.items ≡ contents_set entries.now effect.now) }
{
    match effect {
        Effect::Push(element) => new_contents(element, alloc),
        Effect::MoveBack { id } => contents_before(entries, alloc, *id),
        Effect::MoveForward { id } => contents_after(entries, alloc, *id),
        Effect::Set { path, content } => only(alloc, path, content),
        Effect::Split { .. }
        | Effect::Drop { .. }
        | Effect::Invalidate { .. }
        | Effect::Bump { .. } => Ok(Vec::new(alloc)),
    }
}
