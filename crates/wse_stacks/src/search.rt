// What stands in a list of elements.
ghost use Rattle.std.specs.Prelude.{◌≡◌, not, ◌&&◌, reverse, find};
ghost use Rattle.std.specs.List.{list_any};
ghost use Rattle.std.specs.Option.{option_copied};
ghost use Rattle.wse_element.specs.Live.{is_live_at, is_valid_at};
ghost use Rattle.wse_element.specs.Stacks.{record_of, closest_past, closest_future};

use crate::entry::Entry;
use wse_element::Element;
use wse_path::RelPath;

fn element_of(entry: Option<&Entry>) -> Option<&Element>
    ensures { option_copied result ≡ option_copied entry.entry }
{
    match entry {
        Some(entry) => Some(entry.element()),
        None => None,
    }
}

fn entry_of(entries: &[Entry], id: u64) -> Option<&Entry>
    ensures { option_copied result ≡ record_of entries.now id }
{
    entries.iter().find(|entry| entry.element().id() == id)
}

/// The element with the id.
pub(crate) fn record_of(entries: &[Entry], id: u64) -> Option<&Element>
    ensures { option_copied result ≡ record_of entries.now id }
{
    element_of(entry_of(entries, id))
}

fn past_entry<'a>(entries: &'a [Entry], path: &RelPath) -> Option<&'a Entry>
    ensures { option_copied result ≡ find (λ r. r.done && is_live_at path.now r) (reverse entries.now) }
{
    entries.iter().rev().find(|entry| entry.element().is_done() && entry.element().is_live_at(path))
}

/// The last element that is done and live at the path.
pub(crate) fn closest_past<'a>(entries: &'a [Entry], path: &RelPath) -> Option<&'a Element>
    ensures { option_copied result ≡ closest_past entries.now path.now }
{
    element_of(past_entry(entries, path))
}

fn future_entry<'a>(entries: &'a [Entry], path: &RelPath) -> Option<&'a Entry>
    ensures { option_copied result ≡ find (λ r. not r.done && is_live_at path.now r) entries.now }
{
    entries.iter().find(|entry| !entry.element().is_done() && entry.element().is_live_at(path))
}

/// The first element that isn't done and is live at the path.
pub(crate) fn closest_future<'a>(entries: &'a [Entry], path: &RelPath) -> Option<&'a Element>
    ensures { option_copied result ≡ closest_future entries.now path.now }
{
    element_of(future_entry(entries, path))
}

/// Whether an element is live at the path.
pub(crate) fn is_live_at(entries: &[Entry], path: &RelPath) -> bool
    ensures { result ≡ list_any (is_live_at path.now) entries.now }
{
    entries.iter().any(|entry| entry.element().is_live_at(path))
}

/// Whether an element is live and valid at the path.
pub(crate) fn is_valid_at(entries: &[Entry], path: &RelPath) -> bool
    ensures { result ≡ list_any (is_valid_at path.now) entries.now }
{
    entries
        .iter()
        .any(|entry| entry.element().is_valid_at(path))
}
