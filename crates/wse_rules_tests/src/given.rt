// Values made from text.
use std::alloc::Global;
use std::test::Fail;
use wse_element::{Body, Element, Elements, Part, PartState, Parts};
use wse_locks::Locks;
use wse_path::{Bytes, Choice, Files, Label, RelPath};
use wse_stacks::Stacks;

/// The path of one segment.
pub fn path(alloc: Global, text: &str) -> Result<RelPath, Fail> {
    let mut segments = Vec::new(alloc);
    segments.push(String::from_str(alloc, text)?)?;
    Ok(RelPath::new(segments)?)
}

fn number(text: &str) -> u64 {
    match text.parse::<u64>() {
        Ok(number) => number,
        Err(_) => 0,
    }
}

fn content(alloc: Global, odd: bool) -> Result<Option<Bytes>, Fail> {
    let text = if odd { "odd" } else { "even" };
    Ok(Some(Bytes::new(text.as_bytes().to_vec(alloc)?)))
}

/// What an element with that id did to each of its files: one with an odd id left what the next with an even id found.
fn body(alloc: Global, id: u64) -> Result<Body, Fail> {
    let odd = id % 2 == 1;
    Ok(Body::Whole {
        was: content(alloc, odd)?,
        is: content(alloc, !odd)?,
    })
}

fn live(alloc: Global, id: u64, file: &str, valid: bool) -> Result<Part, Fail> {
    let body = body(alloc, id)?;
    if !body.is_change() {
        return Err(Fail::new("no change"));
    }
    Ok(Part::new(path(alloc, file)?, PartState::Live, valid, body))
}

/// A file, with `!` behind it where the part is invalid, and with `#` where it is closed.
fn part(alloc: Global, id: u64, text: &str) -> Result<Part, Fail> {
    if let Some(file) = text.strip_suffix("#") {
        let path = path(alloc, file)?;
        return Ok(Part::new(path, PartState::Closed, true, Body::empty()));
    }
    match text.strip_suffix("!") {
        Some(file) => live(alloc, id, file, false),
        None => live(alloc, id, text, true),
    }
}

fn parts(alloc: Global, id: u64, text: &str) -> Result<Vec<Part>, Fail> {
    let mut all = Vec::new(alloc);
    for word in text.split(' ') {
        all.push(part(alloc, id, word)?)?;
    }
    Ok(all)
}

/// An element as `ID KIND FILE ..`. The kind is `text` or `move`, of which the first can be split, and `-` before it says
/// that the element is undone.
fn element(alloc: Global, text: &str) -> Result<Element, Fail> {
    let Some((id, rest)) = text.split_once(' ') else {
        return Err(Fail::new("no id"));
    };
    let Some((kind, files)) = rest.split_once(' ') else {
        return Err(Fail::new("no kind"));
    };
    let id = number(id);
    let parts = parts(alloc, id, files)?;
    if !Element::can_have(parts.as_slice()) {
        return Err(Fail::new("no element"));
    }
    let label = Label::new(String::from_str(alloc, "T")?);
    let splits = kind.ends_with("text");
    let done = !kind.starts_with("-");
    Ok(Element::new(id, id, label, splits, done, Parts::new(parts)))
}

/// The stacks of the elements, which are cut at semicolons.
pub fn stacks(alloc: Global, text: &str) -> Result<Stacks, Fail> {
    let mut all = Vec::new(alloc);
    if !text.is_empty() {
        for item in text.split(';') {
            all.push(element(alloc, item)?)?;
        }
    }
    match Stacks::from_elements(alloc, Elements::new(all), 100, 100) {
        Ok(stacks) => Ok(stacks),
        Err(_) => Err(Fail::new("no stacks")),
    }
}

/// Files, cut at spaces.
pub fn files(alloc: Global, text: &str) -> Result<Vec<RelPath>, Fail> {
    let mut all = Vec::new(alloc);
    if !text.is_empty() {
        for word in text.split(' ') {
            all.push(path(alloc, word)?)?;
        }
    }
    Ok(all)
}

/// The locks of one participant, as its number and files, or none.
pub fn locks(alloc: Global, text: &str) -> Result<Locks, Fail> {
    let mut locks = Locks::new(alloc);
    let Some((by, held)) = text.split_once(' ') else {
        return Ok(locks);
    };
    let by = if by == "1" { 1 } else { 2 };
    let files = files(alloc, held)?;
    match locks.take(alloc, by, files.as_slice()) {
        Ok(()) => Ok(locks),
        Err(_) => Err(Fail::new("no locks")),
    }
}

/// `all`, `this`, `cancel`, or the files that other commands changed.
pub fn choice(alloc: Global, text: &str) -> Result<Choice, Fail> {
    match text {
        "all" => Ok(Choice::All),
        "this" => Ok(Choice::This),
        "cancel" => Ok(Choice::Cancel),
        _ => Ok(Choice::Turned {
            files: Files::new(files(alloc, text)?),
        }),
    }
}
