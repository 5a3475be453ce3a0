// A record behind an open gate.
ghost use Rattle.std.specs.Prelude.{◌≡◌, ◌≤◌, ◌<◌, ◌+◌, ◌++◌, ◌^◌, List, ℕ, length, drop, IfOk, IfSome, IfNone};
ghost use Rattle.wse_log.specs.Grammar.{HasShortBody, behind_gate, BeginWithNoRecord};

use crate::numbers::number_at;
use std::alloc::Global;
use std::marker::Model;
use wse_path::{Bytes, Memory, copy_bytes};

/// A body, and the byte behind it. Contracts see these.
#[derive(Drop)]
pub(crate) struct RawRecord {
    body: Bytes,
    mark: u8,
}

impl Model for RawRecord {
    ghost use Rattle.wse_log.specs.Grammar.{JournalRecord};

    ghost Value = { JournalRecord };

    ghost view = { λ a. record { body = a.body; mark = a.mark } };
}

impl RawRecord {
    ghost use Rattle.std.specs.Prelude.{◌==◌};
    ghost use Rattle.wse_log.specs.Grammar.{settled_byte};

    /// The body.
    pub(crate) fn body(&self) -> &[u8]
        ensures { result.now ≡ self.now.body }
    {
        self.body.as_slice()
    }

    /// Whether the byte behind the body says that the record is settled. This project's own format.
    pub(crate) fn is_settled(&self) -> bool
        ensures { result ≡ (self.now.mark == settled_byte) }
    {
        self.mark == 0x5A
    }
}

/// The record behind the gate at that place, or None where its length, its body and the byte behind that aren't whole.
pub(crate) fn record_behind(
    alloc: Global,
    area: &[u8],
    gate: usize,
) -> Result<Option<RawRecord>, Memory>
    requires { gate < length area.now }
    ensures none { IfOk result (λ found. IfNone found (BeginWithNoRecord (drop (gate + 1) area.now))) }
    ensures some { IfOk result (λ found. IfSome found (λ r. (more : List ℕ) × (drop (gate + 1) area.now ≡ behind_gate r ++ more))) }
    ensures short { IfOk result (λ found. IfSome found HasShortBody) }
    ensures room { IfOk result (λ found. IfSome found (λ r. gate + 6 + length r.body ≤ length area.now)) }
{
    let room = area.len() - gate - 1;
    if room < 4 {
        return Ok(None);
    }
    let count = number_at(area, gate + 1) as usize;
    if room - 4 <= count {
        return Ok(None);
    }
    let body = copy_bytes(alloc, &area[gate + 5..gate + 5 + count])?;
    let mark = area[gate + 5 + count];
    Ok(Some(RawRecord { body, mark }))
}
