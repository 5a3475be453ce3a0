// What the elements will count for after a list of effects. Only the elements from which an effect takes are looked into.
ghost use Rattle.std.specs.Prelude.{◌≡◌, ℕ, [], ◌∷◌, IfOk};
ghost use Rattle.std.specs.List.{All, list_any};
ghost use Rattle.wse_path.specs.PathMap.{capped};
ghost use Rattle.wse_element.specs.Effects.{after_each};
ghost use Rattle.wse_element.specs.State.{StacksState};
ghost use Rattle.wse_element.specs.Weight.{weight};
ghost use Rattle.wse_stacks.specs.Image.{IsSmall};
ghost use Rattle.wse_stacks.specs.Weigh.{images_each, pushed_by, brought, takes, loses};

use crate::entry::Entry;
use crate::image::images;
use crate::records::Records;
use std::alloc::Global;
use wse_element::{Effect, Element};
use wse_path::{Duplicate, Memory};

fn takes(effect: &Effect) -> bool
    ensures { result ≡ takes effect.now }
{
    match effect {
        Effect::Split { .. } | Effect::Drop { .. } => true,
        Effect::Push(_)
        | Effect::MoveBack { .. }
        | Effect::MoveForward { .. }
        | Effect::Invalidate { .. }
        | Effect::Bump { .. }
        | Effect::Set { .. } => false,
    }
}

// Whether the effect may take from what the element counts for.
fn loses(element: &Element, effect: &Effect) -> bool
    ensures { result ≡ loses element.now effect.now }
{
    match effect {
        Effect::Split { id, .. } => element.id() == *id,
        Effect::Drop { path, .. } => element.is_live_at(path) || !element.has_live(),
        Effect::Push(_)
        | Effect::MoveBack { .. }
        | Effect::MoveForward { .. }
        | Effect::Invalidate { .. }
        | Effect::Bump { .. }
        | Effect::Set { .. } => false,
    }
}

fn loses_by(element: &Element, effects: &[Effect]) -> bool
    ensures { result ≡ list_any (loses element.now) effects.now }
{
    effects.iter().any(|effect| loses(element, effect))
}

fn takes_any(effects: &[Effect]) -> bool
    ensures { result ≡ list_any takes effects.now }
{
    effects.iter().any(|effect| takes(effect))
}

// What the effects leave of these.
fn images_each(records: Records, alloc: Global, effects: &[Effect]) -> Result<Records, Memory>
    requires { All IsSmall effects.now }
    ensures { IfOk result (λ all. all ≡ images_each effects.now records) }
{
    let mut left = records;
    for effect in effects {
        left = images(left.as_slice(), alloc, effect)?;
    }
    Ok(left)
}

// What is left of the element counts for that.
fn left_weight(entry: &Entry, alloc: Global, effects: &[Effect]) -> Result<u64, Memory>
    requires { All IsSmall effects.now }
    ensures { IfOk result (λ w. w ≡ capped (weight (images_each effects.now (entry.now ∷ [])))) }
{
    if !loses_by(entry.element(), effects) {
        return Ok(entry.weight());
    }
    let mut one = Records::new(alloc);
    one.push(entry.share()?)?;
    Ok(images_each(one, alloc, effects)?.weight())
}

// What is left of all these.
fn all_left(entries: &[Entry], alloc: Global, effects: &[Effect]) -> Result<u64, Memory>
    requires { All IsSmall effects.now }
    ensures { IfOk result (λ w. w ≡ capped (weight (images_each effects.now entries.now))) }
{
    let mut sum: u64 = 0;
    for entry in entries {
        sum = sum.saturating_add(left_weight(entry, alloc, effects)?);
    }
    Ok(sum)
}

// What the effects behind it leave of the element that this one brings, if it brings one.
fn pushed_weight(alloc: Global, effect: &Effect, later: &[Effect]) -> Result<u64, Memory>
    requires { All IsSmall later.now }
    ensures { IfOk result (λ w. w ≡ capped (weight (images_each later.now (pushed_by effect.now)))) }
{
    match effect {
        Effect::Push(element) => {
            if !loses_by(element, later) {
                return Ok(element.weight());
            }
            left_weight(&Entry::new(alloc, element.duplicate(alloc)?)?, alloc, later)
        }
        _ => Ok(0),
    }
}

// What is left of all elements that the effects bring.
fn brought_weight(alloc: Global, effects: &[Effect]) -> Result<u64, Memory>
    requires { All IsSmall effects.now }
    ensures { IfOk result (λ w. w ≡ capped (weight (brought effects.now))) }
{
    let mut sum: u64 = 0;
    for at in 0..effects.len() {
        sum = sum.saturating_add(pushed_weight(alloc, &effects[at], &effects[at + 1..])?);
    }
    Ok(sum)
}

/// What the elements count for after the effects, or 2^64-1 where that is greater.
pub(crate) fn weight_after(
    records: &Records,
    alloc: Global,
    effects: &[Effect],
) -> Result<u64, Memory>
    requires { All IsSmall effects.now }
    ensures { IfOk result (λ w. (next_id serial : ℕ) → w ≡ capped (weight (after_each (record { records = records.now; next_id = next_id; serial = serial }) effects.now).records)) }
{
    let left = if takes_any(effects) {
        all_left(records.as_slice(), alloc, effects)?
    } else {
        records.weight()
    };
    Ok(left.saturating_add(brought_weight(alloc, effects)?))
}
