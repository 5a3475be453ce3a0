// Whether an element fits behind a linked list.
ghost use Rattle.std.specs.Prelude.{◌≡◌};
ghost use Rattle.std.specs.List.{list_all};
ghost use Rattle.std.specs.Option.{option_copied};
ghost use Rattle.wse_element.specs.Linked.{is_numbered, meet_at};
ghost use Rattle.wse_stacks.specs.Fits.{fits_after, fits_at, fits};

use crate::indexed::Indexed;
use wse_element::Element;
use wse_path::RelPath;

fn is_numbered(element: &Element, next_id: u64) -> bool
    ensures { result ≡ is_numbered next_id element.now }
{
    0 < element.id() && element.id() < next_id && 0 < element.origin() && element.origin() < next_id
}

// Whether two neighbours meet at the path, where both are valid there.
fn meet_at(path: &RelPath, element: &Element, next: &Element) -> bool
    ensures { result ≡ meet_at path.now element.now next.now }
{
    match (element.live_part(path), next.live_part(path)) {
        (Some(left), Some(found)) => { !(left.is_valid() && found.is_valid()) || left.meets(found) }
        _ => true,
    }
}

fn fits_after(path: &RelPath, element: &Element, last: Option<&Element>) -> bool
    ensures { result ≡ fits_after path.now element.now (option_copied last.entry) }
{
    match last {
        Some(last) => {
            (last.is_done() || !element.is_done())
                && (!last.is_valid_at(path) || element.is_valid_at(path))
                && meet_at(path, last, element)
        }
        None => true,
    }
}

fn fits_at(before: &Indexed, element: &Element, path: &RelPath) -> bool
    ensures { result ≡ fits_at before.now element.now path.now }
{
    !element.is_live_at(path) || fits_after(path, element, before.last_live(path))
}

fn fits_each(before: &Indexed, element: &Element) -> bool
    ensures { result ≡ list_all (λ part. fits_at before.now element.now part.path) element.now.parts }
{
    element
        .parts()
        .iter()
        .all(|part| fits_at(before, element, part.path()))
}

/// Whether the element fits behind these, which are linked, where this is the next free id.
pub(crate) fn fits(before: &Indexed, element: &Element, next_id: u64) -> bool
    ensures { result ≡ fits next_id before.now element.now }
{
    !before.has_id(element.id())
        && is_numbered(element, next_id)
        && element.has_live()
        && element.is_apart()
        && fits_each(before, element)
}
