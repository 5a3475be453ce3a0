// Records whose parts are lost or invalid.
ghost use Rattle.std.specs.Prelude.{◌≡◌, map, IfOk};
ghost use Rattle.wse_element.specs.Losses.{lost_at, without_dead, flushed, future_lost_at, dropped, invalid_at, invalidated};
ghost use Rattle.wse_element.specs.Effects.{lost_for};
ghost use Rattle.wse_element.specs.declared.state.PartState.TheVariants.{Closed};

use crate::stacks::copies;
use std::alloc::Global;
use wse_element::{Element, PartState};
use wse_path::{Duplicate, Memory, RelPath};

fn closed_at(alloc: Global, element: &Element, path: &RelPath) -> Result<Element, Memory>
    ensures { IfOk result (λ lost. lost ≡ lost_at path.now Closed element.now) }
{
    let mut copy = element.duplicate(alloc)?;
    copy.lose_at(path, PartState::Closed);
    Ok(copy)
}

fn closed_each(alloc: Global, records: &[Element], path: &RelPath) -> Result<Vec<Element>, Memory>
    ensures { IfOk result (λ all. all.items ≡ map (lost_at path.now Closed) records.now) }
{
    let mut all = Vec::new(alloc);
    for element in records {
        all.push(closed_at(alloc, element, path)?)?;
    }
    Ok(all)
}

fn future_lost_at(alloc: Global, element: &Element, path: &RelPath) -> Result<Element, Memory>
    ensures { IfOk result (λ lost. lost ≡ future_lost_at path.now element.now) }
{
    let mut copy = element.duplicate(alloc)?;
    if !copy.is_done() {
        copy.lose_at(path, PartState::Incompatible);
    }
    Ok(copy)
}

fn future_lost_each(
    alloc: Global,
    records: &[Element],
    path: &RelPath,
) -> Result<Vec<Element>, Memory>
    ensures { IfOk result (λ all. all.items ≡ map (future_lost_at path.now) records.now) }
{
    let mut all = Vec::new(alloc);
    for element in records {
        all.push(future_lost_at(alloc, element, path)?)?;
    }
    Ok(all)
}

// The records that are live somewhere.
fn without_dead(alloc: Global, records: &[Element]) -> Result<Vec<Element>, Memory>
    ensures { IfOk result (λ all. all.items ≡ without_dead records.now) }
{
    let mut all = Vec::new(alloc);
    for element in records {
        if element.has_live() {
            all.push(element.duplicate(alloc)?)?;
        }
    }
    Ok(all)
}

fn flushed(alloc: Global, records: &[Element], path: &RelPath) -> Result<Vec<Element>, Memory>
    ensures { IfOk result (λ all. all.items ≡ flushed records.now path.now) }
{
    let lost = closed_each(alloc, records, path)?;
    without_dead(alloc, &lost)
}

fn dropped(alloc: Global, records: &[Element], path: &RelPath) -> Result<Vec<Element>, Memory>
    ensures { IfOk result (λ all. all.items ≡ dropped records.now path.now) }
{
    let lost = future_lost_each(alloc, records, path)?;
    without_dead(alloc, &lost)
}

/// The records without what is lost at the path for this reason.
pub(crate) fn lost_for(
    alloc: Global,
    records: &[Element],
    path: &RelPath,
    reason: PartState,
) -> Result<Vec<Element>, Memory>
    ensures { IfOk result (λ all. all.items ≡ lost_for records.now path.now reason) }
{
    match reason {
        PartState::Live => copies(alloc, records),
        PartState::Closed => flushed(alloc, records, path),
        PartState::Incompatible => dropped(alloc, records, path),
    }
}

fn invalid_at(alloc: Global, element: &Element, path: &RelPath) -> Result<Element, Memory>
    ensures { IfOk result (λ invalid. invalid ≡ invalid_at path.now element.now) }
{
    let mut copy = element.duplicate(alloc)?;
    copy.invalidate_at(path);
    Ok(copy)
}

/// The records, of which each live part at the path is invalid.
pub(crate) fn invalidated(
    alloc: Global,
    records: &[Element],
    path: &RelPath,
) -> Result<Vec<Element>, Memory>
    ensures { IfOk result (λ all. all.items ≡ invalidated records.now path.now) }
{
    let mut all = Vec::new(alloc);
    for element in records {
        all.push(invalid_at(alloc, element, path)?)?;
    }
    Ok(all)
}
