// The element that an undo or a redo is about.
ghost use Rattle.std.specs.Prelude.{◌≡◌, option_map};
ghost use Rattle.std.specs.Option.{option_copied};
ghost use Rattle.wse_element.specs.Applicable.{is_closest};
ghost use Rattle.wse_rules.specs.Ruling.{closest};

use wse_element::Element;
use wse_path::{Direction, RelPath};
use wse_stacks::Stacks;

fn closest_id(stacks: &Stacks, direction: Direction, path: &RelPath) -> Option<u64>
    ensures { result ≡ option_map (λ r. r.id) (closest direction stacks.now.state.records path.now) }
{
    match direction {
        Direction::Back => stacks.closest_past(path),
        Direction::Forward => stacks.closest_future(path),
    }
}

/// Whether the path's closest element in that direction is the one with the id.
pub(crate) fn is_closest(stacks: &Stacks, direction: Direction, id: u64, path: &RelPath) -> bool
    ensures { result ≡ is_closest id (closest direction stacks.now.state.records path.now) }
{
    match closest_id(stacks, direction, path) {
        Some(other) => other == id,
        None => false,
    }
}

/// The path's closest past for an undo, and its closest future for a redo.
pub(crate) fn closest<'a>(
    stacks: &'a Stacks,
    direction: Direction,
    path: &RelPath,
) -> Option<&'a Element>
    ensures { option_copied result ≡ closest direction stacks.now.state.records path.now }
{
    let _ = stacks.count();
    match closest_id(stacks, direction, path) {
        Some(id) => stacks.element(id),
        None => None,
    }
}
