// What an effect sets in the tree.
ghost use Rattle.std.specs.Prelude.{◌≡◌, [], ◌∷◌, IfOk};
ghost use Rattle.std.specs.Option.{option_map_or};
ghost use Rattle.wse_element.specs.Stacks.{record_of};
ghost use Rattle.wse_element.specs.Effects.{old_contents, new_contents, contents_set};

use crate::stacks::record_of;
use std::alloc::Global;
use wse_element::{Effect, Element};
use wse_path::{Bytes, Duplicate, Memory, RelPath};

/// Paths, each with the content that it gets: None where no file is to be.
pub type Contents = Vec<(RelPath, Option<Bytes>)>;

fn old_contents(alloc: Global, element: &Element) -> Result<Contents, Memory>
    ensures { IfOk result (λ all. all.items ≡ old_contents element.now) }
{
    let mut all = Vec::new(alloc);
    for part in element.parts() {
        all.push((part.path().duplicate(alloc)?, part.old_bytes(alloc)?))?;
    }
    Ok(all)
}

fn new_contents(alloc: Global, element: &Element) -> Result<Contents, Memory>
    ensures { IfOk result (λ all. all.items ≡ new_contents element.now) }
{
    let mut all = Vec::new(alloc);
    for part in element.parts() {
        all.push((part.path().duplicate(alloc)?, part.new_bytes(alloc)?))?;
    }
    Ok(all)
}

fn contents_before(alloc: Global, records: &[Element], id: u64) -> Result<Contents, Memory>
    ensures { IfOk result (λ all. all.items ≡ option_map_or old_contents (record_of records.now id) []) }
{
    match record_of(records, id) {
        Some(element) => old_contents(alloc, element),
        None => Ok(Vec::new(alloc)),
    }
}

fn contents_behind(alloc: Global, records: &[Element], id: u64) -> Result<Contents, Memory>
    ensures { IfOk result (λ all. all.items ≡ option_map_or new_contents (record_of records.now id) []) }
{
    match record_of(records, id) {
        Some(element) => new_contents(alloc, element),
        None => Ok(Vec::new(alloc)),
    }
}

fn only(alloc: Global, path: &RelPath, content: &Option<Bytes>) -> Result<Contents, Memory>
    ensures { IfOk result (λ all. all.items ≡ (path.now, content.now) ∷ []) }
{
    let mut all = Vec::new(alloc);
    all.push((path.duplicate(alloc)?, content.duplicate(alloc)?))?;
    Ok(all)
}

/// The paths that the effect sets in the tree, each with the content that it has then. This project's own rule.
pub fn contents_set(alloc: Global, records: &[Element], effect: &Effect) -> Result<Contents, Memory>
    ensures { IfOk result (λ all. all.items ≡ contents_set records.now effect.now) }
{
    match effect {
        Effect::Push(element) => new_contents(alloc, element),
        Effect::MoveBack { id } => contents_before(alloc, records, *id),
        Effect::MoveForward { id } => contents_behind(alloc, records, *id),
        Effect::Set { path, content } => only(alloc, path, content),
        _ => Ok(Vec::new(alloc)),
    }
}
