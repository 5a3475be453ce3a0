// States as bytes.
ghost use Rattle.std.specs.Prelude.{◌≡◌, Ok, IfOk, IfErr, OnOk};
ghost use Rattle.wse_codec.specs.declared.snapshot.Snapshot.{Snapshot as SnapshotValue};
ghost use Rattle.wse_codec.specs.Spelling.{state_bytes};
ghost use Rattle.wse_codec.specs.Allowed.{IsAllowedState, IsSpellableState};
ghost use Rattle.wse_codec.specs.Reading.{snapshot_at, read_snapshot};
ghost use Rattle.wse_codec.specs.Gives.{Gives};
ghost use Rattle.wse_codec.specs.Answers.{IsReading, IsWithin};

use crate::elements::take_elements;
use crate::fields::{take_byte, take_u64};
use crate::put_elements::put_elements;
use crate::put_fields::put_pair;
use crate::put_versions::put_versions;
use crate::refused::RecordRefused;
use crate::snapshot::Snapshot;
use crate::unread::Unread;
use crate::versions::take_versions;
use std::alloc::Global;
use wse_path::{Bytes, Memory};

/// The state as bytes: the byte 0, the serial number and the next free id in eight bytes each, and behind their number in
/// four bytes the versions and the elements. This project's own format.
///
/// Its versions stand in path order, and none is 0.
#[tactic(auto, unfolding(crate::specs::Spelling::state_bytes), using(crate::proofs::ShortLemmas::versions_short, crate::proofs::ShortLemmas::elements_short))]
pub fn write_state(alloc: Global, state: &Snapshot) -> Result<Bytes, Memory>
    requires { IsSpellableState state.now }
    ensures spelled { IfOk result (λ bytes. bytes ≡ state_bytes state.now) }
    ensures allowed { OnOk result (IsAllowedState state.now) }
{
    let mut out = Vec::new(alloc);
    out.push(0)?;
    put_pair(&mut out, state.serial, state.next_id)?;
    put_versions(&mut out, state.versions.as_slice())?;
    put_elements(&mut out, state.elements.as_slice())?;
    Ok(Bytes::new(out))
}

#[tactic(auto, unfolding(crate::specs::Reading::snapshot_at))]
fn take_state(alloc: Global, body: &[u8]) -> Result<Snapshot, Unread>
    ensures { Gives (λ state. state) result (snapshot_at body.now) }
{
    let (kind, rest) = take_byte(body)?;
    if kind != 0 {
        return Err(Unread::Wrong { left: body.len() });
    }
    let (serial, rest) = take_u64(rest)?;
    let (next_id, rest) = take_u64(rest)?;
    let (versions, rest) = take_versions(alloc, rest)?;
    let (elements, rest) = take_elements(alloc, rest)?;
    if !rest.is_empty() {
        return Err(Unread::Wrong { left: rest.len() });
    }
    Ok(Snapshot {
        serial,
        next_id,
        versions,
        elements,
    })
}

/// The state that the bytes spell. Bytes that spell none are refused as by `read_record`.
pub fn read_state(alloc: Global, body: &[u8]) -> Result<Snapshot, RecordRefused>
    // What is read is spelled so.
    ensures spelled { IfOk result (λ state. IsAllowedState state × (body.now ≡ state_bytes state)) }
    // What is spelled so is read, unless there is no memory.
    ensures only { (state : SnapshotValue) → IsAllowedState state → body.now ≡ state_bytes state → IsReading result (Ok state) }
    ensures within { IfErr result (IsWithin body.now) }
    // Field by field.
    ensures read { IsReading result (read_snapshot body.now) }
{
    match take_state(alloc, body) {
        Ok(state) => Ok(state),
        Err(why) => Err(why.refused(body)),
    }
}
