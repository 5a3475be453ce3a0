// An answer to an edit, as text.
use std::alloc::Global;
use wse_history::Answer;
use wse_path::{Hit, Memory, Numbered, Which};

pub fn limit_name(which: Which) -> &'static str {
    match which {
        Which::Known => "known",
        Which::Weight => "weight",
        Which::Serial => "serial",
        Which::Files => "files",
        _ => "another",
    }
}

pub fn push_number(
    alloc: Global,
    text: &mut String,
    name: &str,
    number: u64,
) -> Result<(), Memory> {
    text.push_str(format!(in alloc; " {name} {number}")?.as_str())?;
    Ok(())
}

pub fn push_changed(alloc: Global, text: &mut String, changed: &[Numbered]) -> Result<(), Memory> {
    for one in changed {
        let path = one.path.text(alloc)?;
        push_number(alloc, text, path.as_str(), u64::from(one.number))?;
    }
    Ok(())
}

fn push_rest(
    alloc: Global,
    text: &mut String,
    element: Option<u64>,
    failed: Option<u64>,
    limit: &Option<Hit>,
) -> Result<(), Memory> {
    if let Some(id) = element {
        push_number(alloc, text, "element", id)?;
    }
    if let Some(index) = failed {
        push_number(alloc, text, "failed", index)?;
    }
    if let Some(hit) = limit {
        push_number(alloc, text, limit_name(hit.which), hit.would_be)?;
    }
    Ok(())
}

/// The changed paths with their versions, the element, the failed operation and the limit, as far as they are told.
pub fn said(alloc: Global, answer: &Answer) -> Result<String, Memory> {
    let mut text = String::new(alloc);
    if let Answer::Edit {
        changed,
        element,
        failed,
        limit,
        skipped: _,
    } = answer
    {
        push_changed(alloc, &mut text, changed.as_slice())?;
        let index = match failed {
            Some((index, _)) => Some(*index),
            None => None,
        };
        push_rest(alloc, &mut text, *element, index, limit)?;
    }
    Ok(text)
}
