// What an effect leaves of each element of the list.
ghost use Rattle.std.specs.Prelude.{◌≡◌, ◌+◌, ◌^◌, ◌<◌, [], ◌∷◌, ◌++◌, OnOk, IfOk, length, true};
ghost use Rattle.wse_element.specs.Record.{AreParts};
ghost use Rattle.wse_element.specs.Split.{split_one};
ghost use Rattle.wse_element.specs.Stacks.{has_id};
ghost use Rattle.wse_element.specs.Effects.{records_after};
ghost use Rattle.wse_stacks.specs.Image.{if_live, image_lost, image, images, IsSmall};
ghost use Rattle.wse_element.specs.Laws.{PushesParts};

use crate::entry::Entry;
use crate::lose::{future_lost, invalidated, lost, marked};
use crate::records::Records;
use std::alloc::Global;
use wse_element::{Effect, Element, Elements, PartState};
use wse_path::{Duplicate, Memory, RelPath};

// Puts the element behind the others, unless it is live nowhere.
fn push_live(all: &mut Records, entry: Entry) -> Result<(), Memory>
    ensures { OnOk result (all.new ≡ all.old ++ if_live entry) }
{
    if entry.element().has_live() {
        all.push(entry)?;
    }
    Ok(())
}

fn push_lost(
    all: &mut Records,
    alloc: Global,
    entry: &Entry,
    path: &RelPath,
    reason: PartState,
) -> Result<(), Memory>
    ensures { OnOk result (all.new ≡ all.old ++ image_lost path.now reason entry.now) }
{
    match reason {
        PartState::Live => all.push(entry.share()?),
        PartState::Closed => push_live(all, lost(entry, alloc, path, PartState::Closed)?),
        PartState::Incompatible => push_live(all, future_lost(entry, alloc, path)?),
    }
}

fn push_all(all: &mut Records, alloc: Global, elements: Elements) -> Result<(), Memory>
    ensures { OnOk result (all.new ≡ all.old ++ elements) }
{
    for element in elements.into_vec() {
        all.push(Entry::new(alloc, element)?)?;
    }
    Ok(())
}

// Puts the pieces of the element that is split, or any other as it is.
fn push_split(
    all: &mut Records,
    alloc: Global,
    entry: &Entry,
    id: u64,
    first: u64,
) -> Result<(), Memory>
    requires { first < 2 ^ 63 }
    ensures { OnOk result (all.new ≡ all.old ++ split_one id first entry.now) }
{
    if entry.element().id() != id {
        return all.push(entry.share()?);
    }
    push_all(all, alloc, entry.element().pieces(alloc, first)?)
}

fn push_image(
    all: &mut Records,
    alloc: Global,
    entry: &Entry,
    effect: &Effect,
) -> Result<(), Memory>
    requires { IsSmall effect.now }
    ensures { OnOk result (all.new ≡ all.old ++ image effect.now entry.now) }
{
    match effect {
        Effect::MoveBack { id } => all.push(marked(entry, alloc, *id, false)?),
        Effect::MoveForward { id } => all.push(marked(entry, alloc, *id, true)?),
        Effect::Split { id, first } => push_split(all, alloc, entry, *id, *first),
        Effect::Drop { path, reason } => push_lost(all, alloc, entry, path, *reason),
        Effect::Invalidate { path } => all.push(invalidated(entry, alloc, path)?),
        Effect::Push(_) | Effect::Bump { .. } | Effect::Set { .. } => all.push(entry.share()?),
    }
}

/// What the effect leaves of each of the elements, one after another.
pub(crate) fn images(entries: &[Entry], alloc: Global, effect: &Effect) -> Result<Records, Memory>
    requires { IsSmall effect.now }
    ensures { IfOk result (λ all. all ≡ images effect.now entries.now) }
{
    let mut all = Records::new(alloc);
    for entry in entries {
        push_image(&mut all, alloc, entry, effect)?;
    }
    Ok(all)
}

fn push_copy(records: &mut Records, alloc: Global, element: &Element) -> Result<(), Memory>
    ensures pushed { OnOk result (records.new ≡ records.old ++ element.now ∷ []) }
    ensures parts { OnOk result (AreParts element.now.parts) }
{
    let _ = element.parts();
    records.push(Entry::new(alloc, element.duplicate(alloc)?)?)
}

// One pass over the list, for any effect but one that brings a new element.
fn pass(records: &mut Records, alloc: Global, effect: &Effect) -> Result<(), Memory>
    requires { IsSmall effect.now }
    ensures { OnOk result (records.new ≡ images effect.now records.old) }
{
    *records = images(records.as_slice(), alloc, effect)?;
    Ok(())
}

/// Makes the list what the effect leaves.
pub(crate) fn enact(records: &mut Records, alloc: Global, effect: &Effect) -> Result<(), Memory>
    requires { IsSmall effect.now }
    ensures after { OnOk result (records.new ≡ records_after records.old effect.now) }
    ensures parts { OnOk result (PushesParts effect.now) }
{
    match effect {
        Effect::Push(element) => push_copy(records, alloc, element),
        Effect::Bump { .. } | Effect::Set { .. } => Ok(()),
        _ => pass(records, alloc, effect),
    }
}
