// Records that are done or not any more, and records that become several.
ghost use Rattle.std.specs.Prelude.{◌≡◌, ◌++◌, ◌<◌, ◌^◌, IfOk, OnOk};
ghost use Rattle.wse_element.specs.Effects.{marked_one, marked};
ghost use Rattle.wse_element.specs.Split.{split_one, split};

use std::alloc::Global;
use wse_element::Element;
use wse_path::{Duplicate, Memory};

fn marked_one(alloc: Global, element: &Element, id: u64, done: bool) -> Result<Element, Memory>
    ensures { IfOk result (λ marked. marked ≡ marked_one id done element.now) }
{
    let mut copy = element.duplicate(alloc)?;
    if copy.id() == id {
        copy.set_done(done);
    }
    Ok(copy)
}

/// The records, of which the one with the id is done now, or isn't any more.
pub(crate) fn marked(
    alloc: Global,
    records: &[Element],
    id: u64,
    done: bool,
) -> Result<Vec<Element>, Memory>
    ensures { IfOk result (λ all. all.items ≡ marked records.now id done) }
{
    let mut all = Vec::new(alloc);
    for element in records {
        all.push(marked_one(alloc, element, id, done)?)?;
    }
    Ok(all)
}

// Puts the pieces of the record with the id behind the others, and any other record as it is.
fn push_split(
    all: &mut Vec<Element>,
    alloc: Global,
    element: &Element,
    id: u64,
    first: u64,
) -> Result<(), Memory>
    requires { first < 2 ^ 63 }
    ensures { OnOk result (all.new.items ≡ all.old.items ++ split_one id first element.now) }
{
    if element.id() != id {
        all.push(element.duplicate(alloc)?)?;
        return Ok(());
    }
    for piece in element.pieces(alloc, first)?.into_vec() {
        all.push(piece)?;
    }
    Ok(())
}

/// The records with the pieces of the one with the id in its place, numbered from `first` on.
pub(crate) fn split(
    alloc: Global,
    records: &[Element],
    id: u64,
    first: u64,
) -> Result<Vec<Element>, Memory>
    requires { first < 2 ^ 63 }
    ensures { IfOk result (λ all. all.items ≡ split records.now id first) }
{
    let mut all = Vec::new(alloc);
    for element in records {
        push_split(&mut all, alloc, element, id, first)?;
    }
    Ok(all)
}
