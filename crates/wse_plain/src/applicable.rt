// When an effect may come.
ghost use Rattle.std.specs.Prelude.{◌≡◌, not};
ghost use Rattle.std.specs.List.{list_all};
ghost use Rattle.std.specs.Option.{option_copied};
ghost use Rattle.wse_element.specs.Content.{old_content};
ghost use Rattle.wse_element.specs.Linked.{is_left_by};
ghost use Rattle.wse_element.specs.Stacks.{closest_past, closest_future};
ghost use Rattle.wse_element.specs.Applicable.{has_future, follows_past, may_push, is_closest, may_go_back, may_go_forward, may_split, may_lose, may_come, sets_tree};

use crate::stacks::{closest_future, closest_past, is_live_at, is_valid_at, record_of};
use wse_element::{Effect, Element, Part, PartState};
use wse_path::RelPath;

/// Whether the path has a future. Takes no memory.
pub fn has_future(records: &[Element], path: &RelPath) -> bool
    ensures { result ≡ has_future records.now path.now }
{
    closest_future(records, path).is_some()
}

// Whether the part found what the record left at its path, if that is valid.
fn is_left_by(part: &Part, last: &Element) -> bool
    ensures { result ≡ is_left_by part.now.path (old_content part.now.body) last.now }
{
    match last.live_part(part.path()) {
        Some(left) => !left.is_valid() || part.follows(left),
        None => true,
    }
}

/// Whether the part found what the closest past of its path left there, if that is valid. Takes no memory.
pub fn follows_past(records: &[Element], part: &Part) -> bool
    ensures { result ≡ follows_past records.now part.now }
{
    match closest_past(records, part.path()) {
        Some(last) => is_left_by(part, last),
        None => true,
    }
}

fn none_has_future(records: &[Element], parts: &[Part]) -> bool
    ensures { result ≡ list_all (λ part. not (has_future records.now part.path)) parts.now }
{
    parts.iter().all(|part| !has_future(records, part.path()))
}

fn each_follows_past(records: &[Element], parts: &[Part]) -> bool
    ensures { result ≡ list_all (follows_past records.now) parts.now }
{
    parts.iter().all(|part| follows_past(records, part))
}

fn may_push(records: &[Element], next_id: u64, element: &Element) -> bool
    ensures { result ≡ may_push (record { records = records.now; next_id = next_id; serial = 0 }) element.now }
{
    element.id() == next_id
        && element.origin() == element.id()
        && element.is_done()
        && element.is_whole()
        && none_has_future(records, element.parts())
        && each_follows_past(records, element.parts())
        && element.is_apart()
}

fn is_closest(element: Option<&Element>, id: u64) -> bool
    ensures { result ≡ is_closest id (option_copied element.entry) }
{
    match element {
        Some(element) => element.id() == id,
        None => false,
    }
}

fn is_closest_past(records: &[Element], parts: &[Part], id: u64) -> bool
    ensures { result ≡ list_all (λ part. is_closest id (closest_past records.now part.path)) parts.now }
{
    parts
        .iter()
        .all(|part| is_closest(closest_past(records, part.path()), id))
}

fn is_closest_future(records: &[Element], parts: &[Part], id: u64) -> bool
    ensures { result ≡ list_all (λ part. is_closest id (closest_future records.now part.path)) parts.now }
{
    parts.iter().all(|part| is_closest(closest_future(records, part.path()), id))
}

/// Whether the record may be undone. Takes no memory.
pub fn may_go_back(records: &[Element], element: &Element) -> bool
    ensures { result ≡ may_go_back records.now element.now }
{
    element.is_done()
        && element.is_whole()
        && is_closest_past(records, element.parts(), element.id())
}

/// Whether the record may be redone. Takes no memory.
pub fn may_go_forward(records: &[Element], element: &Element) -> bool
    ensures { result ≡ may_go_forward records.now element.now }
{
    !element.is_done()
        && element.is_whole()
        && is_closest_future(records, element.parts(), element.id())
}

/// Whether the record may be split. Takes no memory.
pub fn may_split(element: &Element) -> bool
    ensures { result ≡ may_split element.now }
{
    element.splits() && 2 <= element.parts().len()
}

/// Whether there is something to lose at the path for this reason. Takes no memory.
pub fn may_lose(records: &[Element], path: &RelPath, reason: PartState) -> bool
    ensures { result ≡ may_lose records.now path.now reason }
{
    match reason {
        PartState::Live => false,
        PartState::Closed => is_live_at(records, path),
        PartState::Incompatible => has_future(records, path),
    }
}

/// Whether the effect may come behind these records, where this is the next free id, whatever the other numbers. Takes no
/// memory.
pub fn may_come(records: &[Element], next_id: u64, effect: &Effect) -> bool
    ensures { result ≡ may_come (record { records = records.now; next_id = next_id; serial = 0 }) effect.now }
{
    match effect {
        Effect::Push(element) => may_push(records, next_id, element),
        Effect::MoveBack { id } => match record_of(records, *id) {
            Some(element) => may_go_back(records, element),
            None => false,
        },
        Effect::MoveForward { id } => match record_of(records, *id) {
            Some(element) => may_go_forward(records, element),
            None => false,
        },
        Effect::Split { id, first } => match record_of(records, *id) {
            Some(element) => may_split(element) && *first == next_id,
            None => false,
        },
        Effect::Drop { path, reason } => may_lose(records, path, *reason),
        Effect::Invalidate { path } => is_valid_at(records, path),
        Effect::Bump { .. } => true,
        Effect::Set { path, .. } => !is_valid_at(records, path),
    }
}

/// Whether the effect sets paths of the tree. Takes no memory.
pub fn sets_tree(effect: &Effect) -> bool
    ensures { result ≡ sets_tree effect.now }
{
    match effect {
        Effect::Push(_)
        | Effect::MoveBack { .. }
        | Effect::MoveForward { .. }
        | Effect::Set { .. } => true,
        _ => false,
    }
}
