// Whether records fit one another.
ghost use Rattle.std.specs.Prelude.{◌≡◌, ◌↔◌, not, ◌&&◌, IsTrue, IfOk};
ghost use Rattle.std.specs.List.{list_any, list_all};
ghost use Rattle.wse_element.specs.Live.{is_valid_at, has_live};
ghost use Rattle.wse_element.specs.Stacks.{live_at, has_id, ids};
ghost use Rattle.wse_element.specs.Apart.{is_apart};
ghost use Rattle.wse_element.specs.Linked.{are_different, is_numbered, come_first, meet_at, neighbours_meet, IsLinked};
ghost use Rattle.wse_plain.specs.Fit.{fit_at};

use crate::stacks::live_at;
use std::alloc::Global;
use wse_element::{Element, Part};
use wse_path::{Memory, RelPath};

fn has_id(records: &[Element], id: u64) -> bool
    ensures { result ≡ list_any (has_id id) records.now }
{
    records.iter().any(|element| element.id() == id)
}

// Whether no id stands twice.
fn are_different(records: &[Element]) -> bool
    ensures { result ≡ are_different (ids records.now) }
{
    for at in 0..records.len() {
        if has_id(&records[at + 1..], records[at].id()) {
            return false;
        }
    }
    true
}

fn is_numbered(element: &Element, next_id: u64) -> bool
    ensures { result ≡ is_numbered next_id element.now }
{
    0 < element.id() && element.id() < next_id && 0 < element.origin() && element.origin() < next_id
}

// Whether the ids were given out, and each record is live somewhere and apart.
fn stand_alone(records: &[Element], next_id: u64) -> bool
    ensures { result ≡ list_all (λ r. is_numbered next_id r && (has_live r && is_apart r)) records.now }
{
    records.iter().all(|element| is_numbered(element, next_id)
        && element.has_live()
        && element.is_apart())
}

fn any_done(records: &[Element]) -> bool
    ensures { result ≡ list_any (λ r. r.done) records.now }
{
    records.iter().any(|element| element.is_done())
}

// Whether the done ones come first.
fn done_first(records: &[Element]) -> bool
    ensures { result ≡ come_first (λ r. r.done) records.now }
{
    for at in 0..records.len() {
        if !records[at].is_done() {
            return !any_done(&records[at + 1..]);
        }
    }
    true
}

fn any_invalid(records: &[Element], path: &RelPath) -> bool
    ensures { result ≡ list_any (λ r. not (is_valid_at path.now r)) records.now }
{
    records.iter().any(|element| !element.is_valid_at(path))
}

// Whether those that are invalid at the path come first.
fn invalid_first(records: &[Element], path: &RelPath) -> bool
    ensures { result ≡ come_first (λ r. not (is_valid_at path.now r)) records.now }
{
    for at in 0..records.len() {
        if records[at].is_valid_at(path) {
            return !any_invalid(&records[at + 1..], path);
        }
    }
    true
}

// Whether two neighbours meet at the path, where both are valid there.
fn meet_at(path: &RelPath, element: &Element, next: &Element) -> bool
    ensures { result ≡ meet_at path.now element.now next.now }
{
    match (element.live_part(path), next.live_part(path)) {
        (Some(left), Some(found)) => { !(left.is_valid() && found.is_valid()) || left.meets(found) }
        _ => true,
    }
}

fn neighbours_meet(records: &[Element], path: &RelPath) -> bool
    ensures { result ≡ neighbours_meet path.now records.now }
{
    for at in 1..records.len() {
        if !meet_at(path, &records[at - 1], &records[at]) {
            return false;
        }
    }
    true
}

// Whether the records fit one another at the path.
fn fit_at(alloc: Global, records: &[Element], path: &RelPath) -> Result<bool, Memory>
    ensures { IfOk result (λ fit. fit ≡ fit_at records.now path.now) }
{
    let there = live_at(alloc, records, path)?;
    Ok(done_first(&there) && invalid_first(&there, path) && neighbours_meet(&there, path))
}

// The same at the path of each of the parts.
fn fit_at_each(alloc: Global, records: &[Element], parts: &[Part]) -> Result<bool, Memory>
    ensures { IfOk result (λ fit. fit ≡ list_all (λ part. fit_at records.now part.path) parts.now) }
{
    for part in parts {
        if !fit_at(alloc, records, part.path())? {
            return Ok(false);
        }
    }
    Ok(true)
}

// And of each of the records.
fn fit_everywhere(alloc: Global, records: &[Element]) -> Result<bool, Memory>
    ensures { IfOk result (λ fit. fit ≡ list_all (λ r. list_all (λ part. fit_at records.now part.path) r.parts) records.now) }
{
    for element in records {
        if !fit_at_each(alloc, records, element.parts())? {
            return Ok(false);
        }
    }
    Ok(true)
}

/// Whether the records fit one another, where this is the next free id. This project's own rule.
pub fn is_linked(alloc: Global, records: &[Element], next_id: u64) -> Result<bool, Memory>
    ensures { IfOk result (λ linked. IsTrue linked ↔ IsLinked next_id records.now) }
{
    if !are_different(records) {
        return Ok(false);
    }
    if !stand_alone(records, next_id) {
        return Ok(false);
    }
    let fit = fit_everywhere(alloc, records)?;
    Ok(fit)
}
