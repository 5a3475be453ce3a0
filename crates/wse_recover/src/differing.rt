// Paths at which the tree isn't as the elements say.
ghost use Rattle.std.specs.Prelude.{◌≡◌, ◌++◌, ◌∷◌, [], true, filter, IfOk, OnOk, if◌then◌else◌};
ghost use Rattle.std.specs.Option.{option_copied, option_map_or};
ghost use Rattle.wse_path.specs.Changes.{is_same};
ghost use Rattle.wse_element.specs.Content.{old_content, new_content};
ghost use Rattle.wse_element.specs.Linked.{is_left_by, is_found_by};
ghost use Rattle.wse_element.specs.Stacks.{closest_past, closest_future};
ghost use Rattle.wse_recover.specs.Differing.{differs, AreDiffering};

use std::alloc::Global;
use wse_element::{Body, Element, Part};
use wse_path::{Files, Memory, RelPath, Tree, content_slice, is_same_content};
use wse_stacks::Stacks;

fn is_old(part: &Part, content: Option<&[u8]>) -> bool
    ensures { result ≡ is_same (option_copied content.entry) (old_content part.now.body) }
{
    match part.body() {
        Body::Whole { was, .. } => is_same_content(content, content_slice(was)),
    }
}

fn is_new(part: &Part, content: Option<&[u8]>) -> bool
    ensures { result ≡ is_same (option_copied content.entry) (new_content part.now.body) }
{
    match part.body() {
        Body::Whole { is, .. } => is_same_content(content, content_slice(is)),
    }
}

// Whether the content is what the element left at the path, if it is valid there.
fn is_left_by(path: &RelPath, content: Option<&[u8]>, element: &Element) -> bool
    ensures { result ≡ is_left_by path.now (option_copied content.entry) element.now }
{
    match element.live_part(path) {
        Some(part) => !part.is_valid() || is_new(part, content),
        None => true,
    }
}

// Whether the content is what the element found at the path, if it is valid there.
fn is_found_by(path: &RelPath, content: Option<&[u8]>, element: &Element) -> bool
    ensures { result ≡ is_found_by path.now (option_copied content.entry) element.now }
{
    match element.live_part(path) {
        Some(part) => !part.is_valid() || is_old(part, content),
        None => true,
    }
}

fn past_of<'a>(stacks: &'a Stacks, path: &RelPath) -> Option<&'a Element>
    ensures { option_copied result ≡ closest_past stacks.now.state.records path.now }
{
    let _ = stacks.count();
    match stacks.closest_past(path) {
        Some(id) => stacks.element(id),
        None => None,
    }
}

fn future_of<'a>(stacks: &'a Stacks, path: &RelPath) -> Option<&'a Element>
    ensures { option_copied result ≡ closest_future stacks.now.state.records path.now }
{
    let _ = stacks.count();
    match stacks.closest_future(path) {
        Some(id) => stacks.element(id),
        None => None,
    }
}

fn is_left(stacks: &Stacks, path: &RelPath, content: Option<&[u8]>) -> bool
    ensures { result ≡ option_map_or (is_left_by path.now (option_copied content.entry)) (closest_past stacks.now.state.records path.now) true }
{
    match past_of(stacks, path) {
        Some(past) => is_left_by(path, content, past),
        None => true,
    }
}

fn is_found(stacks: &Stacks, path: &RelPath, content: Option<&[u8]>) -> bool
    ensures { result ≡ option_map_or (is_found_by path.now (option_copied content.entry)) (closest_future stacks.now.state.records path.now) true }
{
    match future_of(stacks, path) {
        Some(future) => is_found_by(path, content, future),
        None => true,
    }
}

fn differs(stacks: &Stacks, tree: &Tree, path: &RelPath) -> bool
    ensures { result ≡ differs tree.now.files stacks.now.state.records path.now }
{
    let content = tree.get(path);
    !(is_left(stacks, path, content) && is_found(stacks, path, content))
}

// Adds the path, if it differs.
fn push_differing(
    found: &mut Vec<RelPath>,
    stacks: &Stacks,
    tree: &Tree,
    path: RelPath,
) -> Result<(), Memory>
    ensures { OnOk result (found.new.items ≡ found.old.items ++ (if differs tree.now.files stacks.now.state.records path then path ∷ [] else [])) }
{
    if differs(stacks, tree, &path) {
        found.push(path)?;
    }
    Ok(())
}

// Those of the paths that differ.
#[tactic(auto, using(crate::proofs::DifferLemmas::tried_more))]
fn differing_of(
    alloc: Global,
    stacks: &Stacks,
    tree: &Tree,
    paths: Vec<RelPath>,
) -> Result<Vec<RelPath>, Memory>
    ensures { IfOk result (λ found. found.items ≡ filter (differs tree.now.files stacks.now.state.records) paths.items) }
{
    let mut found = Vec::new(alloc);
    for path in paths {
        push_differing(&mut found, stacks, tree, path)?;
    }
    Ok(found)
}

/// The paths at which the tree isn't what the closest past left or what the closest future found, where these are valid, in
/// path order. This project's own rule.
pub(crate) fn differing(alloc: Global, stacks: &Stacks, tree: &Tree) -> Result<Files, Memory>
    ensures { IfOk result (AreDiffering tree.now.files stacks.now.state.records) }
{
    let paths = stacks.paths(alloc)?;
    let found = differing_of(alloc, stacks, tree, paths.into_vec())?;
    Ok(Files::new(found))
}
