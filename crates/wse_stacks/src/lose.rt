// Elements whose parts are lost, invalid, or marked: copies, and the element itself where it stays.
ghost use Rattle.std.specs.Prelude.{◌≡◌, false, IfOk};
ghost use Rattle.wse_element.specs.Live.{is_live};
ghost use Rattle.wse_element.specs.Losses.{lost_at, future_lost_at, invalid_at};
ghost use Rattle.wse_element.specs.Effects.{marked_one};

use crate::entry::Entry;
use std::alloc::Global;
use wse_element::PartState;
use wse_path::{Duplicate, Memory, RelPath};

/// The entry with its live part at the path lost.
pub(crate) fn lost(
    entry: &Entry,
    alloc: Global,
    path: &RelPath,
    state: PartState,
) -> Result<Entry, Memory>
    requires { is_live state ≡ false }
    ensures { IfOk result (λ lost. lost ≡ lost_at path.now state entry.now) }
{
    if !entry.element().is_live_at(path) {
        return entry.share();
    }
    let mut element = entry.element().duplicate(alloc)?;
    element.lose_at(path, state);
    Entry::new(alloc, element)
}

/// The same for an element that isn't done. One that is done stays.
pub(crate) fn future_lost(entry: &Entry, alloc: Global, path: &RelPath) -> Result<Entry, Memory>
    ensures { IfOk result (λ lost. lost ≡ future_lost_at path.now entry.now) }
{
    if entry.element().is_done() {
        return entry.share();
    }
    lost(entry, alloc, path, PartState::Incompatible)
}

/// The entry with its live part at the path invalid.
pub(crate) fn invalidated(entry: &Entry, alloc: Global, path: &RelPath) -> Result<Entry, Memory>
    ensures { IfOk result (λ invalid. invalid ≡ invalid_at path.now entry.now) }
{
    if !entry.element().is_live_at(path) {
        return entry.share();
    }
    let mut element = entry.element().duplicate(alloc)?;
    element.invalidate_at(path);
    Entry::new(alloc, element)
}

/// The entry, which is done now, or isn't any more, if it has the id.
pub(crate) fn marked(entry: &Entry, alloc: Global, id: u64, done: bool) -> Result<Entry, Memory>
    ensures { IfOk result (λ marked. marked ≡ marked_one id done entry.now) }
{
    if entry.element().id() != id {
        return entry.share();
    }
    let mut element = entry.element().duplicate(alloc)?;
    element.set_done(done);
    Entry::new(alloc, element)
}
