// When an effect may come.
ghost use Rattle.std.specs.Prelude.{◌≡◌, is_some, not, ◌&&◌};
ghost use Rattle.std.specs.List.{list_all};
ghost use Rattle.std.specs.Option.{option_copied};
ghost use Rattle.wse_element.specs.Content.{old_content};
ghost use Rattle.wse_element.specs.Linked.{is_left_by};
ghost use Rattle.wse_element.specs.Stacks.{closest_past, closest_future};
ghost use Rattle.wse_element.specs.Applicable.{has_future, follows_past, may_push, is_closest, may_go_back, may_go_forward, may_split, may_lose, may_come};

use crate::entry::Entry;
use crate::search::{closest_future, closest_past, is_live_at, is_valid_at, record_of};
use wse_element::{Effect, Element, Part, PartState};
use wse_path::RelPath;

// Whether the part found what the element left at its path, if that is valid.
fn is_left_by(part: &Part, last: &Element) -> bool
    ensures { result ≡ is_left_by part.now.path (old_content part.now.body) last.now }
{
    match last.live_part(part.path()) {
        Some(left) => !left.is_valid() || part.follows(left),
        None => true,
    }
}

fn follows_past(entries: &[Entry], part: &Part) -> bool
    ensures { result ≡ follows_past entries.now part.now }
{
    match closest_past(entries, part.path()) {
        Some(last) => is_left_by(part, last),
        None => true,
    }
}

fn has_future(entries: &[Entry], path: &RelPath) -> bool
    ensures { result ≡ has_future entries.now path.now }
{
    closest_future(entries, path).is_some()
}

fn none_has_future(entries: &[Entry], parts: &[Part]) -> bool
    ensures { result ≡ list_all (λ part. not (has_future entries.now part.path)) parts.now }
{
    parts.iter().all(|part| !has_future(entries, part.path()))
}

fn each_follows_past(entries: &[Entry], parts: &[Part]) -> bool
    ensures { result ≡ list_all (follows_past entries.now) parts.now }
{
    parts.iter().all(|part| follows_past(entries, part))
}

fn may_push(entries: &[Entry], next_id: u64, element: &Element) -> bool
    ensures { result ≡ may_push (record { records = entries.now; next_id = next_id; serial = 0 }) element.now }
{
    element.id() == next_id
        && element.origin() == element.id()
        && element.is_done()
        && element.is_whole()
        && none_has_future(entries, element.parts())
        && each_follows_past(entries, element.parts())
        && element.is_apart()
}

fn is_closest(element: Option<&Element>, id: u64) -> bool
    ensures { result ≡ is_closest id (option_copied element.entry) }
{
    match element {
        Some(element) => element.id() == id,
        None => false,
    }
}

fn is_closest_past(entries: &[Entry], parts: &[Part], id: u64) -> bool
    ensures { result ≡ list_all (λ part. is_closest id (closest_past entries.now part.path)) parts.now }
{
    parts
        .iter()
        .all(|part| is_closest(closest_past(entries, part.path()), id))
}

fn is_closest_future(entries: &[Entry], parts: &[Part], id: u64) -> bool
    ensures { result ≡ list_all (λ part. is_closest id (closest_future entries.now part.path)) parts.now }
{
    parts.iter().all(|part| is_closest(closest_future(entries, part.path()), id))
}

fn may_go_back(entries: &[Entry], element: &Element) -> bool
    ensures { result ≡ may_go_back entries.now element.now }
{
    element.is_done()
        && element.is_whole()
        && is_closest_past(entries, element.parts(), element.id())
}

fn may_go_forward(entries: &[Entry], element: &Element) -> bool
    ensures { result ≡ may_go_forward entries.now element.now }
{
    !element.is_done()
        && element.is_whole()
        && is_closest_future(entries, element.parts(), element.id())
}

fn may_split(element: &Element) -> bool
    ensures { result ≡ may_split element.now }
{
    element.splits() && 2 <= element.parts().len()
}

fn may_lose(entries: &[Entry], path: &RelPath, reason: PartState) -> bool
    ensures { result ≡ may_lose entries.now path.now reason }
{
    match reason {
        PartState::Live => false,
        PartState::Closed => is_live_at(entries, path),
        PartState::Incompatible => has_future(entries, path),
    }
}

/// Whether the effect may come where this is the list and the next free id.
pub(crate) fn may_come(entries: &[Entry], next_id: u64, effect: &Effect) -> bool
    ensures { result ≡ may_come (record { records = entries.now; next_id = next_id; serial = 0 }) effect.now }
{
    match effect {
        Effect::Push(element) => may_push(entries, next_id, element),
        Effect::MoveBack { id } => match record_of(entries, *id) {
            Some(element) => may_go_back(entries, element),
            None => false,
        },
        Effect::MoveForward { id } => match record_of(entries, *id) {
            Some(element) => may_go_forward(entries, element),
            None => false,
        },
        Effect::Split { id, first } => match record_of(entries, *id) {
            Some(element) => may_split(element) && *first == next_id,
            None => false,
        },
        Effect::Drop { path, reason } => may_lose(entries, path, *reason),
        Effect::Invalidate { path } => is_valid_at(entries, path),
        Effect::Bump { .. } => true,
        Effect::Set { path, .. } => !is_valid_at(entries, path),
    }
}
