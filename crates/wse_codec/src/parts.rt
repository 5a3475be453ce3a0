// Reading the parts of an element.
ghost use Rattle.std.specs.Prelude.{◌≡◌, None, option_map, IfOk};
ghost use Rattle.std.specs.Option.{option_copied};
ghost use Rattle.wse_element.specs.Record.{IsBodyOf, AreParts};
ghost use Rattle.wse_element.specs.declared.body.Body.TheVariants.{Whole};
ghost use Rattle.wse_codec.specs.Pieces.{row_at, coded_at};
ghost use Rattle.wse_codec.specs.Reading.{state_at, may_hold, contents_at, body_at, part_behind, parts_at};
ghost use Rattle.wse_codec.specs.Gives.{Gives};

use crate::contents::take_content;
use crate::fields::{take_byte, take_count, take_flag};
use crate::paths::take_path;
use crate::unread::Unread;
use std::alloc::Global;
use wse_element::{Body, Part, PartState, Parts};
use wse_path::{Bytes, RelPath, content_slice, is_same_content};

/// Whether a part still counts.
#[tactic(auto, unfolding(crate::specs::Reading::state_of, crate::specs::Pieces::coded_at))]
fn take_state(bytes: &[u8]) -> Result<(PartState, &[u8]), Unread>
    ensures { Gives (λ x. (x.0, x.1.now)) result (state_at bytes.now) }
{
    let (byte, rest) = take_byte(bytes)?;
    match byte {
        0 => Ok((PartState::Live, rest)),
        1 => Ok((PartState::Closed, rest)),
        2 => Ok((PartState::Incompatible, rest)),
        _ => Err(Unread::Wrong { left: bytes.len() }),
    }
}

/// Whether a part in this state may hold these contents.
#[tactic(auto, unfolding(crate::specs::Reading::may_hold))]
fn may_hold(state: PartState, was: &Option<Bytes>, is: &Option<Bytes>) -> bool
    ensures { result ≡ may_hold state was.now is.now }
{
    match state {
        PartState::Live => !is_same_content(content_slice(was), content_slice(is)),
        PartState::Closed | PartState::Incompatible => was.is_none() && is.is_none(),
    }
}

/// Both contents.
#[tactic(auto, unfolding(crate::specs::Reading::contents_at))]
fn take_contents(
    alloc: Global,
    bytes: &[u8],
) -> Result<((Option<Bytes>, Option<Bytes>), &[u8]), Unread>
    ensures { Gives (λ x. ((x.0.0, x.0.1), x.1.now)) result (contents_at bytes.now) }
{
    let (was, rest) = take_content(alloc, bytes)?;
    let (is, rest) = take_content(alloc, rest)?;
    Ok(((was, is), rest))
}

/// The body of a part in this state.
#[tactic(auto, unfolding(crate::specs::Reading::body_at), using(crate::proofs::BodyLemmas::may_hold_rule))]
fn take_body(alloc: Global, state: PartState, bytes: &[u8]) -> Result<(Body, &[u8]), Unread>
    ensures read { Gives (λ x. (x.0, x.1.now)) result (body_at state bytes.now) }
    ensures rule { IfOk result (λ x. IsBodyOf state x.0) }
{
    let (form, rest) = take_byte(bytes)?;
    if form != 0 {
        return Err(Unread::Wrong { left: bytes.len() });
    }
    let ((was, is), rest) = take_contents(alloc, rest)?;
    if !may_hold(state, &was, &is) {
        return Err(Unread::Wrong { left: bytes.len() });
    }
    Ok((Body::Whole { was, is }, rest))
}

fn path_of(part: Option<&Part>) -> Option<&RelPath>
    ensures { option_copied result ≡ option_map (λ p. p.path) (option_copied part.entry) }
{
    match part {
        Some(part) => Some(part.path()),
        None => None,
    }
}

/// A part that comes behind the other one, where there is one.
#[tactic(auto, unfolding(crate::specs::Reading::part_behind))]
fn take_part<'a>(
    alloc: Global,
    before: Option<&Part>,
    bytes: &'a [u8],
) -> Result<(Part, &'a [u8]), Unread>
    ensures { Gives (λ x. (x.0, x.1.now)) result (part_behind (option_copied before.entry) bytes.now) }
{
    let (path, rest) = take_path(alloc, path_of(before), bytes)?;
    let (state, rest) = take_state(rest)?;
    let (valid, rest) = take_flag(rest)?;
    let (body, rest) = take_body(alloc, state, rest)?;
    Ok((Part::new(path, state, valid, body), rest))
}

/// That many parts, whose paths rise.
fn take_part_row(alloc: Global, count: u32, bytes: &[u8]) -> Result<(Vec<Part>, &[u8]), Unread>
    ensures { Gives (λ x. (x.0.items, x.1.now)) result (row_at part_behind None count bytes.now) }
{
    let mut parts = Vec::new(alloc);
    let mut rest = bytes;
    for _ in 0..count {
        let (part, after) = take_part(alloc, parts.last(), rest)?;
        parts.push(part)?;
        rest = after;
    }
    Ok((parts, rest))
}

/// The parts of an element.
#[tactic(auto, unfolding(crate::specs::Reading::parts_at))]
pub(crate) fn take_parts(alloc: Global, bytes: &[u8]) -> Result<(Parts, &[u8]), Unread>
    ensures read { Gives (λ x. (x.0, x.1.now)) result (parts_at bytes.now) }
    ensures rule { IfOk result (λ x. AreParts x.0) }
{
    let (count, rest) = take_count(bytes)?;
    let (parts, rest) = take_part_row(alloc, count, rest)?;
    Ok((Parts::new(parts), rest))
}
