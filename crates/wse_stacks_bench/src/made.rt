// Elements and effects of the history that is timed.
use crate::failed::Failed;
use std::alloc::Global;
use wse_element::{Body, Effect, Effects, Element, Elements, Part, PartState, Parts};
use wse_path::{Bytes, Duplicate, Label, Memory, RelPath};

/// What the digits of a number in a name stand for. There are as many in each, so that names stand in the order of numbers.
const PLACES: [usize; 7] = [1_000_000, 100_000, 10_000, 1_000, 100, 10, 1];

fn digits(alloc: Global, prefix: &str, number: usize) -> Result<String, Memory> {
    let mut name = String::from_str(alloc, prefix)?;
    for place in &PLACES {
        let digit = number.checked_div(*place).unwrap_or(0) % 10;
        name.push(char::from_digit(digit as u32, 10).unwrap_or('0'))?;
    }
    Ok(name)
}

/// The file with that number in that folder.
pub fn path(alloc: Global, folder: &str, number: usize) -> Result<RelPath, Failed> {
    let mut segments = Vec::with_capacity(alloc, 2)?;
    segments.push(String::from_str(alloc, folder)?)?;
    segments.push(digits(alloc, "f", number)?)?;
    match RelPath::new(segments) {
        Ok(path) => Ok(path),
        Err(_) => Err(Failed),
    }
}

/// The paths of an element of that many parts, in order.
pub fn paths(alloc: Global, count: usize) -> Result<Vec<RelPath>, Failed> {
    let mut all = Vec::with_capacity(alloc, count)?;
    for number in 0..count {
        all.push(path(alloc, "new", number)?)?;
    }
    Ok(all)
}

fn content(alloc: Global, round: usize) -> Result<Option<Bytes>, Failed> {
    if round == 0 {
        return Ok(None);
    }
    Ok(Some(Bytes::new(digits(alloc, "", round)?.into_bytes())))
}

// A part that found what the round before left.
fn part(alloc: Global, path: &RelPath, round: usize) -> Result<Part, Failed> {
    let was = content(alloc, round)?;
    let is = content(alloc, round.saturating_add(1))?;
    let body = Body::Whole { was, is };
    if !body.is_change() {
        return Err(Failed);
    }
    Ok(Part::new(path.duplicate(alloc)?, PartState::Live, true, body))
}

/// A done element over these paths.
pub fn element(alloc: Global, id: u64, paths: &[RelPath], round: usize) -> Result<Element, Failed> {
    let mut parts = Vec::with_capacity(alloc, paths.len())?;
    for path in paths {
        parts.push(part(alloc, path, round)?)?;
    }
    if !Element::can_have(&parts) {
        return Err(Failed);
    }
    let label = Label::new(String::new(alloc));
    Ok(Element::new(id, id, label, true, true, Parts::new(parts)))
}

/// Elements of one part each, every one at a path of its own.
pub fn elements(alloc: Global, count: usize) -> Result<Elements, Failed> {
    let mut all = Vec::with_capacity(alloc, count)?;
    for number in 0..count {
        let mut one = Vec::with_capacity(alloc, 1)?;
        one.push(path(alloc, "old", number)?)?;
        all.push(element(alloc, (number as u64).saturating_add(1), &one, 0)?)?;
    }
    Ok(Elements::new(all))
}

/// These effects alone.
pub fn only(alloc: Global, effect: Effect) -> Result<Effects, Failed> {
    let mut all = Vec::with_capacity(alloc, 1)?;
    all.push(effect)?;
    Ok(Effects::new(all))
}

/// For each path a drop for this reason.
pub fn drops(alloc: Global, paths: &[RelPath], reason: PartState) -> Result<Effects, Failed> {
    let mut all = Vec::with_capacity(alloc, paths.len())?;
    for path in paths {
        let path = path.duplicate(alloc)?;
        all.push(Effect::Drop { path, reason })?;
    }
    Ok(Effects::new(all))
}

/// For each path a version that rises.
pub fn bumps(alloc: Global, paths: &[RelPath]) -> Result<Effects, Failed> {
    let mut all = Vec::with_capacity(alloc, paths.len())?;
    for path in paths {
        let path = path.duplicate(alloc)?;
        all.push(Effect::Bump { path, by: 1 })?;
    }
    Ok(Effects::new(all))
}
