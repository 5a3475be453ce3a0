// Records: the effects of one command as bytes.
ghost use Rattle.std.specs.Prelude.{◌≡◌, List, Ok, IfOk, IfErr, OnOk};
ghost use Rattle.wse_element.specs.declared.effect.Effect.{Effect as EffectValue};
ghost use Rattle.wse_codec.specs.Spelling.{record_bytes};
ghost use Rattle.wse_codec.specs.Allowed.{IsAllowedRecord, IsSpellable};
ghost use Rattle.wse_codec.specs.Reading.{record_at, read_effects};
ghost use Rattle.wse_codec.specs.Gives.{Gives};
ghost use Rattle.wse_codec.specs.Answers.{IsReading, IsWithin};

use crate::effects::take_effects;
use crate::fields::{take_byte, take_count};
use crate::put_effects::put_effects;
use crate::put_fields::put_u32;
use crate::refused::RecordRefused;
use crate::unread::Unread;
use std::alloc::Global;
use wse_element::{Effect, Effects};
use wse_path::{Bytes, Memory};

/// The record of one command's effects, as bytes: the byte 1, their number in four bytes, and the effects. This project's
/// own format.
///
/// A version rises by 1 or 2 in it, and parts are dropped as closed or as incompatible.
#[tactic(auto, unfolding(crate::specs::Spelling::record_bytes), using(crate::proofs::ShortLemmas::record_row_short))]
pub fn write_record(alloc: Global, effects: &[Effect]) -> Result<Bytes, Memory>
    requires { IsSpellable effects.now }
    ensures spelled { IfOk result (λ bytes. bytes ≡ record_bytes effects.now) }
    ensures allowed { OnOk result (IsAllowedRecord effects.now) }
{
    let mut out = Vec::new(alloc);
    out.push(1)?;
    put_u32(&mut out, effects.len() as u32)?;
    put_effects(&mut out, effects)?;
    Ok(Bytes::new(out))
}

#[tactic(auto, unfolding(crate::specs::Reading::record_at))]
fn take_record(alloc: Global, body: &[u8]) -> Result<Effects, Unread>
    ensures { Gives (λ effects. effects) result (record_at body.now) }
{
    let (kind, rest) = take_byte(body)?;
    if kind != 1 {
        return Err(Unread::Wrong { left: body.len() });
    }
    let (count, rest) = take_count(rest)?;
    let (effects, rest) = take_effects(alloc, count, rest)?;
    if !rest.is_empty() {
        return Err(Unread::Wrong { left: rest.len() });
    }
    Ok(Effects::new(effects))
}

/// The effects of a record.
///
/// Bytes that spell no list of effects are refused at the place of the first field that is cut or not allowed, or of the
/// first byte too many. A path whose fields are whole is refused at the place of its count, and a part whose contents
/// don't suit its state at the form of its body. No memory is taken for a count before its items are there.
pub fn read_record(alloc: Global, body: &[u8]) -> Result<Effects, RecordRefused>
    // What is read is spelled so.
    ensures spelled { IfOk result (λ effects. IsAllowedRecord effects × (body.now ≡ record_bytes effects)) }
    // What is spelled so is read, unless there is no memory.
    ensures only { (effects : List EffectValue) → IsAllowedRecord effects → body.now ≡ record_bytes effects → IsReading result (Ok effects) }
    ensures within { IfErr result (IsWithin body.now) }
    // Field by field.
    ensures read { IsReading result (read_effects body.now) }
{
    match take_record(alloc, body) {
        Ok(effects) => Ok(effects),
        Err(why) => Err(why.refused(body)),
    }
}
