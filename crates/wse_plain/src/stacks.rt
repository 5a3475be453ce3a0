// The past and the future of a path, as lists and by their ends.
ghost use Rattle.std.specs.Prelude.{◌≡◌, not, ◌&&◌, reverse, find, IfOk};
ghost use Rattle.std.specs.List.{list_any};
ghost use Rattle.std.specs.Option.{option_copied};
ghost use Rattle.wse_element.specs.Live.{is_live_at, is_valid_at};
ghost use Rattle.wse_element.specs.Stacks.{live_at, past, future, closest_past, closest_future, record_of};

use std::alloc::Global;
use wse_element::Element;
use wse_path::{Duplicate, Memory, RelPath};

/// Equal records.
pub fn copies(alloc: Global, records: &[Element]) -> Result<Vec<Element>, Memory>
    ensures { IfOk result (λ all. all.items ≡ records.now) }
{
    let mut all = Vec::new(alloc);
    for element in records {
        all.push(element.duplicate(alloc)?)?;
    }
    Ok(all)
}

/// The records that are live at the path, in the order of the list. This project's own rule, as all here.
pub fn live_at(alloc: Global, records: &[Element], path: &RelPath) -> Result<Vec<Element>, Memory>
    ensures { IfOk result (λ all. all.items ≡ live_at records.now path.now) }
{
    let mut all = Vec::new(alloc);
    for element in records {
        if element.is_live_at(path) {
            all.push(element.duplicate(alloc)?)?;
        }
    }
    Ok(all)
}

/// The past of the path: the records that are done and live there, the closest one last.
pub fn past(alloc: Global, records: &[Element], path: &RelPath) -> Result<Vec<Element>, Memory>
    ensures { IfOk result (λ all. all.items ≡ past records.now path.now) }
{
    let mut all = Vec::new(alloc);
    for element in records {
        if element.is_done() && element.is_live_at(path) {
            all.push(element.duplicate(alloc)?)?;
        }
    }
    Ok(all)
}

/// The future of the path: the records that aren't done and are live there, the closest one first.
pub fn future(alloc: Global, records: &[Element], path: &RelPath) -> Result<Vec<Element>, Memory>
    ensures { IfOk result (λ all. all.items ≡ future records.now path.now) }
{
    let mut all = Vec::new(alloc);
    for element in records {
        if !element.is_done() && element.is_live_at(path) {
            all.push(element.duplicate(alloc)?)?;
        }
    }
    Ok(all)
}

// From the last one on, the first that is done and live at the path.
fn last_done<'a>(records: &'a [Element], path: &RelPath) -> Option<&'a Element>
    ensures { option_copied result ≡ find (λ r. r.done && is_live_at path.now r) (reverse records.now) }
{
    records
        .iter()
        .rev()
        .find(|element| element.is_done() && element.is_live_at(path))
}

/// The last record of the path's past. Takes no memory.
pub fn closest_past<'a>(records: &'a [Element], path: &RelPath) -> Option<&'a Element>
    ensures { option_copied result ≡ closest_past records.now path.now }
{
    last_done(records, path)
}

// The first that isn't done and is live at the path.
fn first_undone<'a>(records: &'a [Element], path: &RelPath) -> Option<&'a Element>
    ensures { option_copied result ≡ find (λ r. not r.done && is_live_at path.now r) records.now }
{
    records
        .iter()
        .find(|element| !element.is_done() && element.is_live_at(path))
}

/// The first record of the path's future. Takes no memory.
pub fn closest_future<'a>(records: &'a [Element], path: &RelPath) -> Option<&'a Element>
    ensures { option_copied result ≡ closest_future records.now path.now }
{
    first_undone(records, path)
}

/// The first record with the id. Takes no memory.
pub fn record_of(records: &[Element], id: u64) -> Option<&Element>
    ensures { option_copied result ≡ record_of records.now id }
{
    records.iter().find(|element| element.id() == id)
}

/// Whether a record is live at the path. Takes no memory.
pub fn is_live_at(records: &[Element], path: &RelPath) -> bool
    ensures { result ≡ list_any (is_live_at path.now) records.now }
{
    records.iter().any(|element| element.is_live_at(path))
}

/// Whether a record is live and valid at the path. Takes no memory.
pub fn is_valid_at(records: &[Element], path: &RelPath) -> bool
    ensures { result ≡ list_any (is_valid_at path.now) records.now }
{
    records.iter().any(|element| element.is_valid_at(path))
}
