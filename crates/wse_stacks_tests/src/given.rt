// Values made from text.
use std::alloc::Global;
use std::test::Fail;
use wse_element::{Body, Element, Part, PartState, Parts};
use wse_path::{Bytes, Label, RelPath};

/// The path with that text.
pub fn path(alloc: Global, text: &str) -> Result<RelPath, Fail> {
    let mut all = Vec::new(alloc);
    for segment in text.split('/') {
        all.push(String::from_str(alloc, segment)?)?;
    }
    Ok(RelPath::new(all)?)
}

/// The number, or 0 where the text is none.
pub fn number(text: &str) -> u64 {
    match text.parse::<u64>() {
        Ok(number) => number,
        Err(_) => 0,
    }
}

/// The text as bytes. A dash stands for a file that isn't there.
fn content(alloc: Global, text: &str) -> Result<Option<Bytes>, Fail> {
    if text == "-" {
        return Ok(None);
    }
    Ok(Some(Bytes::new(text.as_bytes().to_vec(alloc)?)))
}

/// A live part with that body.
pub fn live_part(alloc: Global, file: &str, body: Body, valid: bool) -> Result<Part, Fail> {
    if !body.is_change() {
        return Err(Fail::new("no change"));
    }
    let path = path(alloc, file)?;
    Ok(Part::new(path, PartState::Live, valid, body))
}

/// A live part that had the one content and left the other.
pub fn change(alloc: Global, file: &str, was: &str, is: &str, valid: bool) -> Result<Part, Fail> {
    let was = content(alloc, was)?;
    let is = content(alloc, is)?;
    live_part(alloc, file, Body::Whole { was, is }, valid)
}

// A live part, as `PATH:OLD:NEW`.
fn part(alloc: Global, text: &str, valid: bool) -> Result<Part, Fail> {
    let Some((file, contents)) = text.split_once(':') else {
        return Err(Fail::new("no part"));
    };
    match contents.split_once(':') {
        Some((was, is)) => change(alloc, file, was, is, valid),
        None => Err(Fail::new("no contents")),
    }
}

fn parts(alloc: Global, text: &str, valid: bool) -> Result<Vec<Part>, Fail> {
    let mut all = Vec::new(alloc);
    for item in text.split(',') {
        all.push(part(alloc, item, valid)?)?;
    }
    Ok(all)
}

/// A done element with that id, its own origin, and these parts. It can be split.
pub fn element_of(alloc: Global, id: u64, parts: Vec<Part>) -> Result<Element, Fail> {
    if !Element::can_have(parts.as_slice()) {
        return Err(Fail::new("no element"));
    }
    let label = Label::new(String::from_str(alloc, "T")?);
    Ok(Element::new(id, id, label, true, true, Parts::new(parts)))
}

/// The same, with the parts cut at commas.
pub fn element(alloc: Global, id: u64, text: &str, valid: bool) -> Result<Element, Fail> {
    element_of(alloc, id, parts(alloc, text, valid)?)
}
