// Writing elements.
ghost use Rattle.std.specs.Prelude.{◌≡◌, ◌<◌, ◌^◌, ◌++◌, ◌∷◌, length, OnOk};
ghost use Rattle.std.specs.List.{All};
ghost use Rattle.wse_element.specs.Content.{old_content, new_content};
ghost use Rattle.wse_element.specs.Record.{AreParts};
ghost use Rattle.wse_codec.specs.Allowed.{IsAllowedContent, IsAllowedLabel, IsAllowedPart, IsAllowedElement};
ghost use Rattle.wse_codec.specs.Spelling.{state_byte, flags_byte, body_bytes, label_bytes, part_bytes, parts_bytes, element_bytes, elements_bytes};

use crate::put_fields::{byte_of_flag, put_content, put_label, put_pair, put_path, put_u32};
use wse_element::{Body, Element, Part, PartState};
use wse_path::Memory;

/// The byte that stands for a part's state.
#[tactic(auto, unfolding(crate::specs::Spelling::state_byte))]
pub(crate) fn byte_of_state(state: PartState) -> u8
    ensures { result ≡ state_byte state }
{
    match state {
        PartState::Live => 0,
        PartState::Closed => 1,
        PartState::Incompatible => 2,
    }
}

/// The byte that stands for both flags.
#[tactic(auto, unfolding(crate::specs::Spelling::flags_byte))]
fn byte_of_flags(splits: bool, done: bool) -> u8
    ensures { result ≡ flags_byte splits done }
{
    match (splits, done) {
        (false, false) => 0,
        (true, false) => 1,
        (false, true) => 2,
        (true, true) => 3,
    }
}

/// Writes a part's contents.
#[tactic(auto, unfolding(crate::specs::Spelling::body_bytes))]
fn put_body(out: &mut Vec<u8>, body: &Body) -> Result<(), Memory>
    requires old { IsAllowedContent (old_content body.now) }
    requires new { IsAllowedContent (new_content body.now) }
    ensures { OnOk result (out.new.items ≡ out.old.items ++ body_bytes body.now) }
{
    match body {
        Body::Whole { was, is } => {
            out.push(0)?;
            put_content(out, was)?;
            put_content(out, is)
        }
    }
}

/// Writes a part.
#[tactic(auto, unfolding(crate::specs::Spelling::part_bytes), using(crate::proofs::ShortLemmas::part_old_short, crate::proofs::ShortLemmas::part_new_short))]
fn put_part(out: &mut Vec<u8>, part: &Part) -> Result<(), Memory>
    requires { length (part_bytes part.now) < 2 ^ 32 }
    ensures spelled { OnOk result (out.new.items ≡ out.old.items ++ part_bytes part.now) }
    ensures allowed { OnOk result (IsAllowedPart part.now) }
{
    put_path(out, part.path())?;
    out.push(byte_of_state(part.state()))?;
    out.push(byte_of_flag(part.is_valid()))?;
    put_body(out, part.body())
}

/// Writes the parts of an element behind their number.
fn put_parts(out: &mut Vec<u8>, parts: &[Part]) -> Result<(), Memory>
    requires { length (parts_bytes parts.now) < 2 ^ 32 }
    ensures spelled { OnOk result (out.new.items ≡ out.old.items ++ parts_bytes parts.now) }
    ensures allowed { OnOk result (All IsAllowedPart parts.now) }
{
    put_u32(out, parts.len() as u32)?;
    for part in parts {
        put_part(out, part)?;
    }
    Ok(())
}

/// Writes what stands behind an element's numbers: its label, its flags and its parts.
fn put_named_parts(out: &mut Vec<u8>, element: &Element) -> Result<(), Memory>
    requires { length (parts_bytes element.now.parts) < 2 ^ 32 }
    ensures spelled { OnOk result (out.new.items ≡ out.old.items ++ (label_bytes element.now.label
        ++ (flags_byte element.now.splits element.now.done ∷ parts_bytes element.now.parts))) }
    ensures label { OnOk result (IsAllowedLabel element.now.label) }
    ensures rule { OnOk result (AreParts element.now.parts) }
    ensures parts { OnOk result (All IsAllowedPart element.now.parts) }
{
    put_label(out, element.label())?;
    out.push(byte_of_flags(element.splits(), element.is_done()))?;
    put_parts(out, element.parts())
}

/// Writes an element.
#[tactic(auto, unfolding(crate::specs::Spelling::element_bytes), using(crate::proofs::ShortLemmas::element_parts_short, crate::proofs::ShortLemmas::parts_count_short))]
pub(crate) fn put_element(out: &mut Vec<u8>, element: &Element) -> Result<(), Memory>
    requires { length (element_bytes element.now) < 2 ^ 32 }
    ensures spelled { OnOk result (out.new.items ≡ out.old.items ++ element_bytes element.now) }
    ensures allowed { OnOk result (IsAllowedElement element.now) }
{
    put_pair(out, element.id(), element.origin())?;
    put_named_parts(out, element)
}

/// Writes the elements of a state behind their number.
pub(crate) fn put_elements(out: &mut Vec<u8>, elements: &[Element]) -> Result<(), Memory>
    requires { length (elements_bytes elements.now) < 2 ^ 32 }
    ensures spelled { OnOk result (out.new.items ≡ out.old.items ++ elements_bytes elements.now) }
    ensures allowed { OnOk result (All IsAllowedElement elements.now) }
{
    put_u32(out, elements.len() as u32)?;
    for element in elements {
        put_element(out, element)?;
    }
    Ok(())
}
