// What a record's effects set in the tree.
ghost use Rattle.std.specs.Prelude.{◌≡◌, ◌∷◌, [], ◌++◌, ◌^◌, ◌<◌, ◌||◌, true, false, OnOk, IfOk, if◌then◌else◌};
ghost use Rattle.std.specs.List.{All, list_any};
ghost use Rattle.std.specs.Option.{option_copied};
ghost use Rattle.std.specs.FinMap.{is_sorted};
ghost use Rattle.wse_path.specs.Order.{path_cmp};
ghost use Rattle.wse_element.specs.Applicable.{sets_tree};
ghost use Rattle.wse_element.specs.Effects.{old_contents, new_contents, contents_set, after_each};
ghost use Rattle.wse_element.specs.Split.{pieces};
ghost use Rattle.wse_element.specs.Stacks.{record_of};
ghost use Rattle.wse_stacks.specs.Image.{if_live, image_lost, image, images, IsSmall};
ghost use Rattle.wse_txn.specs.Replay.{sets_each};
ghost use Rattle.wse_recover.specs.Sets.{AreToCome, is_meant, is_meant_by, meant, IsPlain, MayEnter};

use std::alloc::Global;
use wse_element::{Effect, Element, PartState};
use wse_path::{Bytes, Duplicate, Items, Memory, RelPath};
use wse_stacks::Stacks;

/// Paths, each with the content that it gets. None: it gets none.
pub(crate) type Sets = Items<(RelPath, Option<Bytes>)>;

fn sets_tree(effect: &Effect) -> bool
    ensures { result ≡ sets_tree effect.now }
{
    match effect {
        Effect::Push(_)
        | Effect::MoveBack { .. }
        | Effect::MoveForward { .. }
        | Effect::Set { .. } => true,
        Effect::Split { .. }
        | Effect::Drop { .. }
        | Effect::Invalidate { .. }
        | Effect::Bump { .. } => false,
    }
}

// Whether the effect moves or splits the element with the id.
fn is_meant(id: u64, effect: &Effect) -> bool
    ensures { result ≡ is_meant id effect.now }
{
    match effect {
        Effect::MoveBack { id: moved } => id == *moved,
        Effect::MoveForward { id: moved } => id == *moved,
        Effect::Split { id: whole, .. } => id == *whole,
        _ => false,
    }
}

fn is_meant_by_any(id: u64, effects: &[Effect]) -> bool
    ensures { result ≡ list_any (is_meant id) effects.now }
{
    effects.iter().any(|effect| is_meant(id, effect))
}

fn is_meant_by(before: &[Effect], effect: &Effect, element: &Element) -> bool
    ensures { result ≡ is_meant_by before.now effect.now element.now }
{
    is_meant_by_any(element.id(), before) || is_meant(element.id(), effect)
}

fn push_meant(
    all: &mut Vec<Element>,
    alloc: Global,
    before: &[Effect],
    effect: &Effect,
    element: &Element,
) -> Result<(), Memory>
    ensures { OnOk result (all.new.items ≡ all.old.items ++ (if is_meant_by before.now effect.now element.now then element.now ∷ [] else [])) }
{
    if is_meant_by(before, effect, element) {
        all.push(element.duplicate(alloc)?)?;
    }
    Ok(())
}

// Copies of the elements that the effects move or split.
fn meant(
    alloc: Global,
    stacks: &Stacks,
    before: &[Effect],
    effect: &Effect,
) -> Result<Vec<Element>, Memory>
    ensures { IfOk result (λ all. all.items ≡ meant before.now effect.now stacks.now.state.records) }
{
    let mut all = Vec::new(alloc);
    for at in 0..stacks.count() {
        if let Some(element) = stacks.element_at(at) {
            push_meant(&mut all, alloc, before, effect, element)?;
        }
    }
    Ok(all)
}

fn push_live(all: &mut Vec<Element>, element: Element) -> Result<(), Memory>
    ensures { OnOk result (all.new.items ≡ all.old.items ++ if_live element) }
{
    if element.has_live() {
        all.push(element)?;
    }
    Ok(())
}

fn push_lost(
    all: &mut Vec<Element>,
    mut element: Element,
    path: &RelPath,
    reason: PartState,
) -> Result<(), Memory>
    ensures { OnOk result (all.new.items ≡ all.old.items ++ image_lost path.now reason element) }
{
    match reason {
        PartState::Live => {
            all.push(element)?;
            Ok(())
        }
        PartState::Closed => {
            element.lose_at(path, PartState::Closed);
            push_live(all, element)
        }
        PartState::Incompatible => {
            if !element.is_done() {
                element.lose_at(path, PartState::Incompatible);
            }
            push_live(all, element)
        }
    }
}

fn push_pieces(
    all: &mut Vec<Element>,
    alloc: Global,
    element: &Element,
    first: u64,
) -> Result<(), Memory>
    requires { first < 2 ^ 63 }
    ensures { OnOk result (all.new.items ≡ all.old.items ++ pieces element.now first) }
{
    for piece in element.pieces(alloc, first)?.into_vec() {
        all.push(piece)?;
    }
    Ok(())
}

fn push_image(
    all: &mut Vec<Element>,
    alloc: Global,
    mut element: Element,
    effect: &Effect,
) -> Result<(), Memory>
    requires { IsPlain effect.now }
    ensures { OnOk result (all.new.items ≡ all.old.items ++ image effect.now element) }
{
    match effect {
        Effect::Split { id, first } => {
            if element.id() == *id {
                return push_pieces(all, alloc, &element, *first);
            }
            all.push(element)?;
        }
        Effect::Drop { path, reason } => push_lost(all, element, path, *reason)?,
        Effect::Invalidate { path } => {
            element.invalidate_at(path);
            all.push(element)?;
        }
        _ => all.push(element)?,
    }
    Ok(())
}

// What the effect leaves of the elements.
fn images(alloc: Global, elements: Vec<Element>, effect: &Effect) -> Result<Vec<Element>, Memory>
    requires { IsPlain effect.now }
    ensures { IfOk result (λ all. all.items ≡ images effect.now elements.items) }
{
    let mut all = Vec::new(alloc);
    for element in elements {
        push_image(&mut all, alloc, element, effect)?;
    }
    Ok(all)
}

fn old_contents(alloc: Global, element: &Element) -> Result<Sets, Memory>
    ensures sets { IfOk result (λ sets. sets ≡ old_contents element.now) }
    ensures rise { IfOk result (λ sets. is_sorted path_cmp sets ≡ true) }
{
    let mut sets = Vec::new(alloc);
    for part in element.parts() {
        sets.push((part.path().duplicate(alloc)?, part.old_bytes(alloc)?))?;
    }
    Ok(Items::new(sets))
}

fn new_contents(alloc: Global, element: &Element) -> Result<Sets, Memory>
    ensures sets { IfOk result (λ sets. sets ≡ new_contents element.now) }
    ensures rise { IfOk result (λ sets. is_sorted path_cmp sets ≡ true) }
{
    let mut sets = Vec::new(alloc);
    for part in element.parts() {
        sets.push((part.path().duplicate(alloc)?, part.new_bytes(alloc)?))?;
    }
    Ok(Items::new(sets))
}

fn one_set(alloc: Global, path: &RelPath, content: &Option<Bytes>) -> Result<Sets, Memory>
    ensures { IfOk result (λ sets. sets ≡ (path.now, content.now) ∷ []) }
{
    let mut sets = Vec::new(alloc);
    sets.push((path.duplicate(alloc)?, content.duplicate(alloc)?))?;
    Ok(Items::new(sets))
}

fn record_of(elements: &[Element], id: u64) -> Option<&Element>
    ensures { option_copied result ≡ record_of elements.now id }
{
    elements.iter().find(|element| element.id() == id)
}

fn contents_set(alloc: Global, elements: &[Element], effect: &Effect) -> Result<Sets, Memory>
    ensures sets { IfOk result (λ sets. sets ≡ contents_set elements.now effect.now) }
    ensures rise { IfOk result (λ sets. is_sorted path_cmp sets ≡ true) }
{
    match effect {
        Effect::Push(element) => new_contents(alloc, element),
        Effect::MoveBack { id } => match record_of(elements, *id) {
            Some(element) => old_contents(alloc, element),
            None => Ok(Items::new(Vec::new(alloc))),
        },
        Effect::MoveForward { id } => match record_of(elements, *id) {
            Some(element) => new_contents(alloc, element),
            None => Ok(Items::new(Vec::new(alloc))),
        },
        Effect::Set { path, content } => one_set(alloc, path, content),
        _ => Ok(Items::new(Vec::new(alloc))),
    }
}

// What the effect sets behind those before it. Only the elements that they name are copied.
fn set_behind(
    alloc: Global,
    stacks: &Stacks,
    before: &[Effect],
    effect: &Effect,
) -> Result<Sets, Memory>
    requires plain { All IsPlain before.now }
    ensures sets { IfOk result (λ sets. sets ≡ contents_set (after_each stacks.now.state before.now).records effect.now) }
    ensures rise { IfOk result (λ sets. is_sorted path_cmp sets ≡ true) }
{
    let mut elements = meant(alloc, stacks, before, effect)?;
    for at in 0..before.len() {
        elements = images(alloc, elements, &before[at])?;
    }
    contents_set(alloc, elements.as_slice(), effect)
}

/// What the effects of one command set in the tree, if they are applicable. One of them sets something at most.
pub(crate) fn sets_of(alloc: Global, stacks: &Stacks, effects: &[Effect]) -> Result<Sets, Memory>
    requires may { MayEnter stacks.now.state effects.now }
    ensures sets { IfOk result (λ sets. sets ≡ sets_each stacks.now.state effects.now) }
    ensures come { IfOk result AreToCome }
{
    let _ = stacks.count();
    for at in 0..effects.len() {
        let effect = &effects[at];
        if sets_tree(effect) {
            return set_behind(alloc, stacks, &effects[..at], effect);
        }
    }
    Ok(Items::new(Vec::new(alloc)))
}
