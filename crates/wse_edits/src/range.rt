// The ranges of edits.
ghost use Rattle.std.specs.Prelude.{◌≡◌, ◌⊎◌, All, IfSome, IfOk, IfErr, OnOk};
ghost use Rattle.wse_text.specs.Index.{IsIndexOf};
ghost use Rattle.wse_edits.specs.Range.{IsRangeOf, range_of, live_range, ranges_of};
ghost use Rattle.wse_edits.specs.Refusal.{inside_error, inside_of};

use crate::refused::EditsRefused;
use std::alloc::Global;
use wse_path::{Encoding, TextEdit};
use wse_text::{Inside, LineIndex};

/// The bytes from `start` up to `end`, both counted from the start of the text.
#[derive(Clone, Copy)]
pub(crate) struct TextRange {
    pub start: usize,
    pub end: usize,
}

/// The ranges of the edits, numbered as the list is. A skipped edit has none.
pub(crate) fn ranges_of(
    alloc: Global,
    text: &str,
    enc: Encoding,
    edits: &[TextEdit],
) -> Result<Vec<Option<TextRange>>, EditsRefused>
    ensures value { IfOk result (λ ranges. ranges.items ≡ ranges_of text.now enc edits.now) }
    ensures within { IfOk result (λ ranges. All (λ range. IfSome range (IsRangeOf text.now)) ranges.items) }
    ensures ok { OnOk result (inside_of text.now enc edits.now ≡ None) }
    ensures err { IfErr result (λ e. (e ≡ EditsRefused.Memory) ⊎ (inside_of text.now enc edits.now ≡ Some e)) }
{
    let lines = LineIndex::of(alloc, text, enc)?;
    let mut ranges = Vec::new(alloc);
    for (number, edit) in edits.iter().enumerate() {
        match live_range(text, &lines, enc, edit) {
            Ok(range) => ranges.push(range)?,
            Err(inside) => {
                return Err(EditsRefused::Inside {
                    edit: number as u64,
                    char_start: inside.char_start,
                });
            }
        }
    }
    Ok(ranges)
}

/// The range of an edit that isn't skipped.
pub(crate) fn live_range(
    text: &str,
    lines: &LineIndex,
    enc: Encoding,
    edit: &TextEdit,
) -> Result<Option<TextRange>, Inside>
    requires { IsIndexOf text.now enc lines.now }
    ensures value { IfOk result (λ range. range ≡ live_range text.now enc edit.now) }
    ensures within { IfOk result (λ range. IfSome range (IsRangeOf text.now)) }
    ensures ok { OnOk result (inside_error text.now enc edit.now ≡ None) }
    ensures err { IfErr result (λ e. inside_error text.now enc edit.now ≡ Some e) }
{
    if edit.skipped {
        return Ok(None);
    }
    let range = range_of(text, lines, enc, edit)?;
    Ok(Some(range))
}

fn range_of(
    text: &str,
    lines: &LineIndex,
    enc: Encoding,
    edit: &TextEdit,
) -> Result<TextRange, Inside>
    requires { IsIndexOf text.now enc lines.now }
    ensures value { result ≡ range_of text.now enc edit.now }
    ensures within { IfOk result (IsRangeOf text.now) }
{
    let start = lines.offset(text, enc, edit.start)?;
    let end = lines.offset(text, enc, edit.end)?;
    Ok(TextRange {
        start: start.min(end),
        end: start.max(end),
    })
}
