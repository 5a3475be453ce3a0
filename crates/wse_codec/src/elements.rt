// Reading elements.
ghost use Rattle.std.specs.Prelude.{◌≡◌, None};
ghost use Rattle.wse_codec.specs.Pieces.{row_at};
ghost use Rattle.wse_codec.specs.Reading.{flags_at, element_at, elements_at};
ghost use Rattle.wse_codec.specs.Gives.{Gives};

use crate::fields::{take_byte, take_u32, take_u64};
use crate::labels::take_label;
use crate::parts::take_parts;
use crate::unread::Unread;
use std::alloc::Global;
use wse_element::{Element, Elements};

/// Whether an element splits, and whether it is done.
#[tactic(auto, unfolding(crate::specs::Reading::flags_of, crate::specs::Pieces::coded_at))]
fn take_flags(bytes: &[u8]) -> Result<((bool, bool), &[u8]), Unread>
    ensures { Gives (λ x. ((x.0.0, x.0.1), x.1.now)) result (flags_at bytes.now) }
{
    let (byte, rest) = take_byte(bytes)?;
    match byte {
        0 => Ok(((false, false), rest)),
        1 => Ok(((true, false), rest)),
        2 => Ok(((false, true), rest)),
        3 => Ok(((true, true), rest)),
        _ => Err(Unread::Wrong { left: bytes.len() }),
    }
}

/// An element.
#[tactic(auto, unfolding(crate::specs::Reading::element_at))]
pub(crate) fn take_element(alloc: Global, bytes: &[u8]) -> Result<(Element, &[u8]), Unread>
    ensures { Gives (λ x. (x.0, x.1.now)) result (element_at bytes.now) }
{
    let (id, rest) = take_u64(bytes)?;
    let (origin, rest) = take_u64(rest)?;
    let (label, rest) = take_label(alloc, rest)?;
    let ((splits, done), rest) = take_flags(rest)?;
    let (parts, rest) = take_parts(alloc, rest)?;
    Ok((Element::new(id, origin, label, splits, done, parts), rest))
}

fn take_element_row(
    alloc: Global,
    count: u32,
    bytes: &[u8],
) -> Result<(Vec<Element>, &[u8]), Unread>
    ensures { Gives (λ x. (x.0.items, x.1.now)) result (row_at (λ last. element_at) None count bytes.now) }
{
    let mut elements = Vec::new(alloc);
    let mut rest = bytes;
    for _ in 0..count {
        let (element, after) = take_element(alloc, rest)?;
        elements.push(element)?;
        rest = after;
    }
    Ok((elements, rest))
}

/// The elements of a state.
#[tactic(auto, unfolding(crate::specs::Reading::elements_at))]
pub(crate) fn take_elements(alloc: Global, bytes: &[u8]) -> Result<(Elements, &[u8]), Unread>
    ensures { Gives (λ x. (x.0, x.1.now)) result (elements_at bytes.now) }
{
    let (count, rest) = take_u32(bytes)?;
    let (elements, rest) = take_element_row(alloc, count, rest)?;
    Ok((Elements::new(elements), rest))
}
