// Writing effects.
ghost use Rattle.std.specs.Prelude.{◌≡◌, ◌<◌, ◌^◌, ◌++◌, length, OnOk};
ghost use Rattle.std.specs.List.{All, flat_map};
ghost use Rattle.wse_codec.specs.Allowed.{IsAllowedEffect, IsSpellableEffect};
ghost use Rattle.wse_codec.specs.Spelling.{effect_bytes};

use crate::put_elements::{byte_of_state, put_element};
use crate::put_fields::{put_content, put_pair, put_path, put_u64};
use wse_element::Effect;
use wse_path::Memory;

/// Writes an effect.
#[tactic(auto, unfolding(crate::specs::Spelling::effect_bytes))]
fn put_effect(out: &mut Vec<u8>, effect: &Effect) -> Result<(), Memory>
    requires rule { IsSpellableEffect effect.now }
    requires short { length (effect_bytes effect.now) < 2 ^ 32 }
    ensures spelled { OnOk result (out.new.items ≡ out.old.items ++ effect_bytes effect.now) }
    ensures allowed { OnOk result (IsAllowedEffect effect.now) }
{
    match effect {
        Effect::Push(element) => {
            out.push(1)?;
            put_element(out, element)
        }
        Effect::MoveBack { id } => {
            out.push(2)?;
            put_u64(out, *id)
        }
        Effect::MoveForward { id } => {
            out.push(3)?;
            put_u64(out, *id)
        }
        Effect::Split { id, first } => {
            out.push(4)?;
            put_pair(out, *id, *first)
        }
        Effect::Drop { path, reason } => {
            out.push(5)?;
            put_path(out, path)?;
            out.push(byte_of_state(*reason))?;
            Ok(())
        }
        Effect::Invalidate { path } => {
            out.push(6)?;
            put_path(out, path)
        }
        Effect::Bump { path, by } => {
            out.push(7)?;
            put_path(out, path)?;
            out.push(*by as u8)?;
            Ok(())
        }
        Effect::Set { path, content } => {
            out.push(8)?;
            put_path(out, path)?;
            put_content(out, content)
        }
    }
}

/// Writes effects, one behind the other.
pub(crate) fn put_effects(out: &mut Vec<u8>, effects: &[Effect]) -> Result<(), Memory>
    requires each { All IsSpellableEffect effects.now }
    requires short { length (flat_map effect_bytes effects.now) < 2 ^ 32 }
    ensures spelled { OnOk result (out.new.items ≡ out.old.items ++ flat_map effect_bytes effects.now) }
    ensures allowed { OnOk result (All IsAllowedEffect effects.now) }
{
    for effect in effects {
        put_effect(out, effect)?;
    }
    Ok(())
}
