// The text after edits, place by place, as it is defined.
ghost use Rattle.std.specs.Prelude.{◌≡◌, ◌++◌, Some, None, if◌then◌else◌, slice_get, option_to_list, IfOk, OnOk};
ghost use Rattle.wse_text.specs.Index.{IsIndexOf};
ghost use Rattle.wse_edits.specs.Edited.{starts_at, replaces, put_in, is_replaced, edited};

use crate::range::live_range;
use std::alloc::Global;
use wse_path::{Bytes, Encoding, Memory, TextEdit};
use wse_text::LineIndex;

/// The text after edits that `resolve` doesn't refuse, slowly: after one pass over the text it looks at every edit at
/// each place, and goes along the lines of its positions. Skipped edits are passed over.
pub fn edited_slowly(
    alloc: Global,
    text: &str,
    enc: Encoding,
    edits: &[TextEdit],
) -> Result<Bytes, Memory>
    ensures { IfOk result (λ after. after ≡ edited text.now enc edits.now) }
{
    let lines = LineIndex::of(alloc, text, enc)?;
    let mut after = Vec::new(alloc);
    for place in 0..text.len() + 1 {
        put_in(&mut after, text, &lines, enc, edits, place)?;
        put_byte(&mut after, kept_byte(text, &lines, enc, edits, place))?;
    }
    Ok(Bytes::new(after))
}

/// Puts the new texts of the edits that start there behind what stands in `after`.
fn put_in(
    after: &mut Vec<u8>,
    text: &str,
    lines: &LineIndex,
    enc: Encoding,
    edits: &[TextEdit],
    place: usize,
) -> Result<(), Memory>
    requires { IsIndexOf text.now enc lines.now }
    ensures { OnOk result (after.new.items ≡ after.old.items ++ put_in text.now enc edits.now place) }
{
    for edit in edits {
        if starts_at(text, lines, enc, place, edit) {
            after.extend_from_slice(edit.new_text.as_str().as_bytes())?;
        }
    }
    Ok(())
}

fn put_byte(after: &mut Vec<u8>, byte: Option<u8>) -> Result<(), Memory>
    ensures { OnOk result (after.new.items ≡ after.old.items ++ option_to_list byte) }
{
    match byte {
        Some(byte) => Ok(after.push(byte)?),
        None => Ok(()),
    }
}

/// The byte at the place, unless an edit replaces it or the text ends there.
fn kept_byte(
    text: &str,
    lines: &LineIndex,
    enc: Encoding,
    edits: &[TextEdit],
    place: usize,
) -> Option<u8>
    requires { IsIndexOf text.now enc lines.now }
    ensures { result ≡ (if is_replaced text.now enc edits.now place then None else slice_get text.now place) }
{
    if is_replaced(text, lines, enc, edits, place) {
        return None;
    }
    text.as_bytes().get(place).copied()
}

fn is_replaced(
    text: &str,
    lines: &LineIndex,
    enc: Encoding,
    edits: &[TextEdit],
    place: usize,
) -> bool
    requires { IsIndexOf text.now enc lines.now }
    ensures { result ≡ is_replaced text.now enc edits.now place }
{
    edits
        .iter()
        .any(|edit| replaces(text, lines, enc, place, edit))
}

fn starts_at(text: &str, lines: &LineIndex, enc: Encoding, place: usize, edit: &TextEdit) -> bool
    requires { IsIndexOf text.now enc lines.now }
    ensures { result ≡ starts_at text.now enc place edit.now }
{
    match live_range(text, lines, enc, edit) {
        Ok(Some(range)) => range.start == place,
        _ => false,
    }
}

fn replaces(text: &str, lines: &LineIndex, enc: Encoding, place: usize, edit: &TextEdit) -> bool
    requires { IsIndexOf text.now enc lines.now }
    ensures { result ≡ replaces text.now enc place edit.now }
{
    match live_range(text, lines, enc, edit) {
        Ok(Some(range)) => range.start <= place && place < range.end,
        _ => false,
    }
}
