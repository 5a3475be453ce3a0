// What a store holds, as text.
use crate::plain::{push_content, push_path};
use std::alloc::Global;
use wse_element::{Element, Part, PartState};
use wse_history::History;
use wse_path::{Bytes, Memory, Tree, Versions};
use wse_stacks::Stacks;

/// Appends a line for each file: its path and its content.
pub fn push_tree(alloc: Global, out: &mut String, tree: &Tree) -> Result<(), Memory> {
    for index in 0..tree.count() {
        let (path, bytes) = tree.file_at(index);
        push_path(alloc, out, path)?;
        out.push(' ')?;
        push_content(alloc, out, bytes)?;
        out.push('\n')?;
    }
    Ok(())
}

fn push_versions(alloc: Global, out: &mut String, versions: &Versions) -> Result<(), Memory> {
    out.push_str("versions")?;
    for index in 0..versions.count() {
        if let (Some(path), Some(number)) = (versions.path_at(index), versions.number_at(index)) {
            out.push(' ')?;
            push_path(alloc, out, path)?;
            write!(out, "={number}")?;
        }
    }
    out.push('\n')?;
    Ok(())
}

fn push_body(alloc: Global, out: &mut String, content: Option<Bytes>) -> Result<(), Memory> {
    match content {
        Some(bytes) => push_content(alloc, out, bytes.as_slice()),
        None => Ok(out.push_str("none")?),
    }
}

fn state_name(part: &Part) -> &'static str {
    match part.state() {
        PartState::Closed => "closed",
        PartState::Incompatible => "incompatible",
        PartState::Live => { if part.is_valid() { "valid" } else { "invalid" } }
    }
}

fn push_part(alloc: Global, out: &mut String, part: &Part) -> Result<(), Memory> {
    out.push_str("  ")?;
    push_path(alloc, out, part.path())?;
    write!(out, " {} ", state_name(part))?;
    push_body(alloc, out, part.body().old_bytes(alloc)?)?;
    out.push_str(" -> ")?;
    push_body(alloc, out, part.body().new_bytes(alloc)?)?;
    out.push('\n')?;
    Ok(())
}

fn push_element(alloc: Global, out: &mut String, element: &Element) -> Result<(), Memory> {
    let done = if element.is_done() { "done" } else { "undone" };
    let splits = if element.splits() { " splits" } else { "" };
    write!(
        out,
        "element {} of {} {done}{splits} ",
        element.id(),
        element.origin()
    )?;
    out.push_str(element.label().as_str())?;
    out.push('\n')?;
    for part in element.parts() {
        push_part(alloc, out, part)?;
    }
    Ok(())
}

fn push_elements(alloc: Global, out: &mut String, stacks: &Stacks) -> Result<(), Memory> {
    for index in 0..stacks.count() {
        if let Some(element) = stacks.element_at(index) {
            push_element(alloc, out, element)?;
        }
    }
    Ok(())
}

/// Appends all that lasts of a store's state: its files, the versions, the elements with what they change, and how many
/// commands were recorded.
pub fn push_state(alloc: Global, out: &mut String, history: &History) -> Result<(), Memory> {
    push_tree(alloc, out, history.tree())?;
    push_versions(alloc, out, history.versions())?;
    push_elements(alloc, out, history.stacks())?;
    let stacks = history.stacks();
    write!(
        out,
        "serial {}, next id {}\n",
        stacks.serial(),
        stacks.next_id()
    )?;
    Ok(())
}
