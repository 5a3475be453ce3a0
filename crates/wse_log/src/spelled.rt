// What is written of a record, and of a new journal.
ghost use Rattle.std.specs.Prelude.{◌≡◌, ◌<◌, ◌≤◌, ◌+◌, ◌^◌, ◌++◌, length, IfOk, OnOk, [], ◌∷◌};
ghost use Rattle.wse_log.specs.Grammar.{behind_gate};
ghost use Rattle.wse_log.specs.Writing.{staging, fresh_journal};

use crate::format::{CLOSED_GATE, HEADER, OPEN_GATE, SETTLED, UNSETTLED};
use byteorder::{BigEndian, ByteOrder};
use std::alloc::Global;
use wse_path::Memory;

// Adds what stands behind an open gate: the length of the body, the body and its mark, and then a closed gate.
fn put_record(out: &mut Vec<u8>, body: &[u8], mark: u8) -> Result<(), Memory>
    requires { length body.now < 2 ^ 32 }
    ensures { OnOk result (out.new.items ≡ out.old.items ++ (behind_gate (record { body = body.now; mark = mark }) ++ 0 ∷ [])) }
{
    let mut count = [0u8; 4];
    BigEndian::write_u32(&mut count, body.len() as u32);
    out.extend_from_slice(&count)?;
    out.extend_from_slice(body)?;
    out.push(mark)?;
    out.push(CLOSED_GATE)?;
    Ok(())
}

/// What stands behind a closed gate before the gate is opened: the length of the body, the body, a mark that isn't
/// settled, and a closed gate.
pub fn staged_record(alloc: Global, body: &[u8]) -> Result<Vec<u8>, Memory>
    requires { length body.now < 2 ^ 32 }
    ensures { IfOk result (λ bytes. bytes.items ≡ staging body.now) }
{
    let mut out = Vec::with_capacity(alloc, body.len() + 6)?;
    put_record(&mut out, body, UNSETTLED)?;
    Ok(out)
}

/// The bytes of a journal whose one record has this body: the header, an open gate, the record, settled, and a closed
/// gate.
pub fn fresh_journal(alloc: Global, body: &[u8]) -> Result<Vec<u8>, Memory>
    requires { length body.now < 2 ^ 32 }
    ensures { IfOk result (λ bytes. bytes.items ≡ fresh_journal body.now) }
{
    let mut out = Vec::with_capacity(alloc, body.len() + 15)?;
    out.extend_from_slice(&HEADER)?;
    out.push(OPEN_GATE)?;
    put_record(&mut out, body, SETTLED)?;
    Ok(out)
}
