// Values made from text.
use std::alloc::Global;
use std::test::Fail;
use wse_element::{Body, Element, Part, PartState, Parts};
use wse_path::{Bytes, Label, RelPath};

/// The path with that text.
pub fn path(alloc: Global, text: &str) -> Result<RelPath, Fail> {
    let mut all = Vec::new(alloc);
    for segment in text.split('/') {
        all.push(String::from_str(alloc, segment)?)?;
    }
    Ok(RelPath::new(all)?)
}

/// The text as bytes. A dash stands for a file that isn't there.
pub fn content(alloc: Global, text: &str) -> Result<Option<Bytes>, Fail> {
    if text == "-" {
        return Ok(None);
    }
    Ok(Some(Bytes::new(text.as_bytes().to_vec(alloc)?)))
}

/// A live and valid part, by its path, its old and its new content.
pub fn live(alloc: Global, file: &str, was: &str, is: &str) -> Result<Part, Fail> {
    let was = content(alloc, was)?;
    let is = content(alloc, is)?;
    let body = Body::Whole { was, is };
    if !body.is_change() {
        return Err(Fail::new("no change"));
    }
    let path = path(alloc, file)?;
    Ok(Part::new(path, PartState::Live, true, body))
}

/// A closed part that is still valid.
pub fn closed(alloc: Global, file: &str) -> Result<Part, Fail> {
    let path = path(alloc, file)?;
    Ok(Part::new(path, PartState::Closed, true, Body::empty()))
}

/// A done element that can be split, its own origin.
pub fn element(alloc: Global, id: u64, label: &str, parts: Vec<Part>) -> Result<Element, Fail> {
    if label.len() > Label::MAX || !Element::can_have(parts.as_slice()) {
        return Err(Fail::new("no element"));
    }
    let label = Label::new(String::from_str(alloc, label)?);
    Ok(Element::new(id, id, label, true, true, Parts::new(parts)))
}

/// Element 1, without a label, over these two parts.
pub fn pair(alloc: Global, first: Part, second: Part) -> Result<Element, Fail> {
    let mut parts = Vec::with_capacity(alloc, 2)?;
    parts.push(first)?;
    parts.push(second)?;
    element(alloc, 1, "", parts)
}

/// Element 1, with this label, over one part.
pub fn single(alloc: Global, label: &str, part: Part) -> Result<Element, Fail> {
    let mut parts = Vec::with_capacity(alloc, 1)?;
    parts.push(part)?;
    element(alloc, 1, label, parts)
}

/// Whether the content is this one.
pub fn is_content(content: &Option<Bytes>, text: &str) -> bool {
    match content {
        Some(bytes) => bytes.as_slice() == text.as_bytes(),
        None => text == "-",
    }
}
