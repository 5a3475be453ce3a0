// What a record leaves behind those before it.
ghost use Rattle.std.specs.Prelude.{◌≡◌, ◌≢◌, ◌+◌, ◌<◌, ◌^◌, [], true, length, None, IfOk, IfSome, IfNone};
ghost use Rattle.wse_element.specs.State.{stacks_of};
ghost use Rattle.wse_element.specs.Numbers.{is_bounded};
ghost use Rattle.wse_element.specs.Applicable.{first_refused_of_kept};
ghost use Rattle.wse_txn.specs.Replay.{replayed};
ghost use Rattle.wse_slow_reader.specs.Given.{IsEntered, IsNext};

use crate::draft::Draft;
use crate::given::Given;
use crate::left::Left;
use std::alloc::Global;
use wse_codec::{RecordRefused, read_record};
use wse_element::Effect;
use wse_path::Memory;

// What the effects of one record leave, or None where one of them is refused.
fn replay(alloc: Global, left: Left, effects: &[Effect]) -> Result<Option<Left>, Memory>
    requires some { effects.now ≢ [] }
    requires bounded { is_bounded (stacks_of left.kept) ≡ true }
    ensures refused { IfOk result (λ next. IfNone next (first_refused_of_kept left.kept effects.now ≢ None)) }
    ensures none_refused { IfOk result (λ next. IfSome next (λ _. first_refused_of_kept left.kept effects.now ≡ None)) }
    ensures next { IfOk result (λ next. IfSome next (λ l. l ≡ replayed left.kept effects.now)) }
    ensures bounded { IfOk result (λ next. IfSome next (λ l. is_bounded (stacks_of l.kept) ≡ true)) }
{
    let mut draft = Draft::begin(alloc, left);
    for effect in effects {
        match draft.with(alloc, effect)? {
            Some(next) => draft = next,
            None => return Ok(None),
        }
    }
    Ok(Some(draft.finish()))
}

// What the effects leave, or that the record behind the gate at that place isn't one.
fn entered(alloc: Global, left: Left, gate: u64, effects: &[Effect]) -> Result<Given, Memory>
    requires some { effects.now ≢ [] }
    requires bounded { is_bounded (stacks_of left.kept) ≡ true }
    ensures { IfOk result (IsEntered left.kept gate effects.now) }
{
    match replay(alloc, left, effects)? {
        Some(next) => Ok(Given::Leaves(next)),
        None => Ok(Given::NoStore { at: gate }),
    }
}

/// What the record behind the gate at that place leaves, or the place where it fails. This project's own format.
pub(crate) fn next_left(alloc: Global, left: Left, gate: u64, body: &[u8]) -> Result<Given, Memory>
    requires bounded { is_bounded (stacks_of left.kept) ≡ true }
    requires room { gate + length body.now + 5 < 2 ^ 64 }
    ensures { IfOk result (IsNext left.kept gate body.now) }
{
    match read_record(alloc, body) {
        Ok(effects) => entered(alloc, left, gate, effects.as_slice()),
        Err(RecordRefused::NotARecord { at }) => Ok(Given::NoStore {
            at: gate + 5 + at as u64,
        }),
        Err(RecordRefused::Memory) => Err(Memory),
    }
}
