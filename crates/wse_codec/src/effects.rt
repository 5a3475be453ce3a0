// Reading effects.
ghost use Rattle.std.specs.Prelude.{◌≡◌, None};
ghost use Rattle.std.specs.Option.{option_copied};
ghost use Rattle.wse_element.specs.declared.state.PartState.{PartState};
ghost use Rattle.wse_codec.specs.Pieces.{row_at, coded_at};
ghost use Rattle.wse_codec.specs.Reading.{push_at, move_back_at, move_forward_at, split_at, reason_of, drop_at, invalidate_at, rise_of, bump_at, set_at, effect_of_kind, effect_at};
ghost use Rattle.wse_codec.specs.Gives.{Gives};

use crate::contents::take_content;
use crate::elements::take_element;
use crate::fields::{take_byte, take_u64};
use crate::paths::take_path;
use crate::unread::Unread;
use std::alloc::Global;
use wse_element::{Effect, PartState};

#[tactic(auto, unfolding(crate::specs::Reading::push_at))]
fn take_push(alloc: Global, bytes: &[u8]) -> Result<(Effect, &[u8]), Unread>
    ensures { Gives (λ x. (x.0, x.1.now)) result (push_at bytes.now) }
{
    let (element, rest) = take_element(alloc, bytes)?;
    Ok((Effect::Push(element), rest))
}

#[tactic(auto, unfolding(crate::specs::Reading::move_back_at))]
fn take_move_back(bytes: &[u8]) -> Result<(Effect, &[u8]), Unread>
    ensures { Gives (λ x. (x.0, x.1.now)) result (move_back_at bytes.now) }
{
    let (id, rest) = take_u64(bytes)?;
    Ok((Effect::MoveBack { id }, rest))
}

#[tactic(auto, unfolding(crate::specs::Reading::move_forward_at))]
fn take_move_forward(bytes: &[u8]) -> Result<(Effect, &[u8]), Unread>
    ensures { Gives (λ x. (x.0, x.1.now)) result (move_forward_at bytes.now) }
{
    let (id, rest) = take_u64(bytes)?;
    Ok((Effect::MoveForward { id }, rest))
}

#[tactic(auto, unfolding(crate::specs::Reading::split_at))]
fn take_split(bytes: &[u8]) -> Result<(Effect, &[u8]), Unread>
    ensures { Gives (λ x. (x.0, x.1.now)) result (split_at bytes.now) }
{
    let (id, rest) = take_u64(bytes)?;
    let (first, rest) = take_u64(rest)?;
    Ok((Effect::Split { id, first }, rest))
}

/// Why parts are dropped.
#[tactic(auto, unfolding(crate::specs::Reading::reason_of, crate::specs::Pieces::coded_at))]
fn take_reason(bytes: &[u8]) -> Result<(PartState, &[u8]), Unread>
    ensures { Gives (λ x. (x.0, x.1.now)) result (coded_at reason_of bytes.now) }
{
    let (byte, rest) = take_byte(bytes)?;
    match byte {
        1 => Ok((PartState::Closed, rest)),
        2 => Ok((PartState::Incompatible, rest)),
        _ => Err(Unread::Wrong { left: bytes.len() }),
    }
}

#[tactic(auto, unfolding(crate::specs::Reading::drop_at))]
fn take_drop(alloc: Global, bytes: &[u8]) -> Result<(Effect, &[u8]), Unread>
    ensures { Gives (λ x. (x.0, x.1.now)) result (drop_at bytes.now) }
{
    let (path, rest) = take_path(alloc, None, bytes)?;
    let (reason, rest) = take_reason(rest)?;
    Ok((Effect::Drop { path, reason }, rest))
}

#[tactic(auto, unfolding(crate::specs::Reading::invalidate_at))]
fn take_invalidate(alloc: Global, bytes: &[u8]) -> Result<(Effect, &[u8]), Unread>
    ensures { Gives (λ x. (x.0, x.1.now)) result (invalidate_at bytes.now) }
{
    let (path, rest) = take_path(alloc, None, bytes)?;
    Ok((Effect::Invalidate { path }, rest))
}

/// By how much a version rises: by 1 or 2.
#[tactic(auto, unfolding(crate::specs::Reading::rise_of, crate::specs::Pieces::coded_at))]
fn take_rise(bytes: &[u8]) -> Result<(u32, &[u8]), Unread>
    ensures { Gives (λ x. (x.0, x.1.now)) result (coded_at rise_of bytes.now) }
{
    let (byte, rest) = take_byte(bytes)?;
    match byte {
        1 => Ok((1, rest)),
        2 => Ok((2, rest)),
        _ => Err(Unread::Wrong { left: bytes.len() }),
    }
}

#[tactic(auto, unfolding(crate::specs::Reading::bump_at))]
fn take_bump(alloc: Global, bytes: &[u8]) -> Result<(Effect, &[u8]), Unread>
    ensures { Gives (λ x. (x.0, x.1.now)) result (bump_at bytes.now) }
{
    let (path, rest) = take_path(alloc, None, bytes)?;
    let (by, rest) = take_rise(rest)?;
    Ok((Effect::Bump { path, by }, rest))
}

#[tactic(auto, unfolding(crate::specs::Reading::set_at))]
fn take_set(alloc: Global, bytes: &[u8]) -> Result<(Effect, &[u8]), Unread>
    ensures { Gives (λ x. (x.0, x.1.now)) result (set_at bytes.now) }
{
    let (path, rest) = take_path(alloc, None, bytes)?;
    let (content, rest) = take_content(alloc, rest)?;
    Ok((Effect::Set { path, content }, rest))
}

/// An effect.
#[tactic(auto, unfolding(crate::specs::Reading::effect_at, crate::specs::Reading::effect_of_kind))]
fn take_effect(alloc: Global, bytes: &[u8]) -> Result<(Effect, &[u8]), Unread>
    ensures { Gives (λ x. (x.0, x.1.now)) result (effect_at bytes.now) }
{
    let (kind, rest) = take_byte(bytes)?;
    match kind {
        1 => take_push(alloc, rest),
        2 => take_move_back(rest),
        3 => take_move_forward(rest),
        4 => take_split(rest),
        5 => take_drop(alloc, rest),
        6 => take_invalidate(alloc, rest),
        7 => take_bump(alloc, rest),
        8 => take_set(alloc, rest),
        _ => Err(Unread::Wrong { left: bytes.len() }),
    }
}

/// That many effects.
pub(crate) fn take_effects(
    alloc: Global,
    count: u32,
    bytes: &[u8],
) -> Result<(Vec<Effect>, &[u8]), Unread>
    ensures { Gives (λ x. (x.0.items, x.1.now)) result (row_at (λ last. effect_at) None count bytes.now) }
{
    let mut effects = Vec::new(alloc);
    let mut rest = bytes;
    for _ in 0..count {
        let (effect, after) = take_effect(alloc, rest)?;
        effects.push(effect)?;
        rest = after;
    }
    Ok((effects, rest))
}
