// What a journal's first record leaves.
ghost use Rattle.std.specs.Prelude.{◌≡◌, ◌+◌, ◌<◌, ◌^◌, ◌&&◌, ◌↔◌, length, IsTrue, IfOk};
ghost use Rattle.wse_element.specs.State.{stacks_of};
ghost use Rattle.wse_element.specs.Numbers.{is_bounded, are_versions_bounded, is_known_bounded};
ghost use Rattle.wse_element.specs.Linked.{IsLinked};
ghost use Rattle.wse_codec.specs.Allowed.{IsAllowedState, numbers_of};
ghost use Rattle.wse_txn.specs.Replay.{kept_in, begun_with};
ghost use Rattle.wse_slow_reader.specs.Given.{IsBegun, IsFirst};

use crate::given::Given;
use crate::left::Left;
use std::alloc::Global;
use wse_codec::{RecordRefused, Snapshot, read_state};
use wse_path::{Duplicate, Memory, Numbered, RelPath};
use wse_plain::{Numbers, are_versions_bounded, is_bounded, is_known_bounded, is_linked};

// The versions as a list of entries.
fn numbers(alloc: Global, versions: &[Numbered]) -> Result<Numbers, Memory>
    ensures { IfOk result (λ all. all.items ≡ numbers_of versions.now) }
{
    let mut all = Vec::new(alloc);
    for version in versions {
        all.push((version.path.duplicate(alloc)?, version.number))?;
    }
    Ok(all)
}

// Whether the numbers are within their bounds, but for the versions.
fn is_state_bounded(state: &Snapshot) -> bool
    ensures { result ≡ is_bounded (stacks_of (kept_in state.now)) }
{
    is_bounded(state.elements.as_slice(), state.next_id, state.serial)
}

// Whether the versions are within their bounds.
fn are_bounded(versions: &[(RelPath, u32)], serial: u64) -> bool
    requires { serial < 2 ^ 31 }
    ensures { result ≡ (are_versions_bounded serial versions.now && is_known_bounded versions.now) }
{
    are_versions_bounded(versions, serial) && is_known_bounded(versions)
}

// Whether the records fit one another.
fn is_state_linked(alloc: Global, state: &Snapshot) -> Result<bool, Memory>
    ensures { IfOk result (λ linked. IsTrue linked ↔ IsLinked state.now.next_id state.now.elements) }
{
    is_linked(alloc, state.elements.as_slice(), state.next_id)
}

// What the state says is kept, with its versions as entries.
fn left_of(alloc: Global, state: Snapshot, versions: Numbers) -> Left
    requires { versions.items ≡ numbers_of state.versions }
    ensures { result ≡ begun_with state }
{
    let Snapshot {
        serial,
        next_id,
        versions: _,
        elements,
    } = state;
    Left {
        versions,
        records: elements.into_vec(),
        next_id,
        serial,
        sets: Vec::new(alloc),
    }
}

// What the state says is kept, where that is linked.
fn begun(alloc: Global, state: Snapshot) -> Result<Given, Memory>
    requires { IsAllowedState state }
    ensures { IfOk result (IsBegun state) }
{
    if !is_state_bounded(&state) {
        return Ok(Given::NoStore { at: 8 });
    }
    let linked = is_state_linked(alloc, &state)?;
    if !linked {
        return Ok(Given::NoStore { at: 8 });
    }
    let versions = numbers(alloc, state.versions.as_slice())?;
    if !are_bounded(&versions, state.serial) {
        return Ok(Given::NoStore { at: 8 });
    }
    Ok(Given::Leaves(left_of(alloc, state, versions)))
}

/// What the first record, behind the gate at place 8, leaves, or the place where it fails. This project's own format.
pub(crate) fn first_left(alloc: Global, body: &[u8]) -> Result<Given, Memory>
    requires { length body.now + 13 < 2 ^ 64 }
    ensures { IfOk result (IsFirst body.now) }
{
    match read_state(alloc, body) {
        Ok(state) => begun(alloc, state),
        Err(RecordRefused::NotARecord { at }) => Ok(Given::NoStore { at: 13 + at as u64 }),
        Err(RecordRefused::Memory) => Err(Memory),
    }
}
