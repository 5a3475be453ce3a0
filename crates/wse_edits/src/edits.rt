// Edits of a text as splices that fit it.
ghost use Rattle.std.specs.Prelude.{◌≡◌, ◌⊎◌, length, zip, filter_map, IfOk, IfErr, OnOk};
ghost use Rattle.std.specs.List.Sorted.{IsPermutation, IsSortedByKey, IsStableByKey};
ghost use Rattle.std.specs.Ordering.{nat_cmp};
ghost use Rattle.wse_splice.specs.Splice.{Fits, LieBetweenCharacters, spliced};
ghost use Rattle.wse_edits.specs.Edited.{splice_in, splices_of, edited};
ghost use Rattle.wse_edits.specs.Refusal.{refusal};

use crate::overlap::refuse_overlap;
use crate::range::{TextRange, ranges_of};
use crate::refused::EditsRefused;
use std::alloc::Global;
use wse_path::{Duplicate, Encoding, Items, Memory, TextEdit};
use wse_splice::{Splice, Splices};

/// The edits as splices of the text before them, sorted by start, equal starts in the order of the list. Skipped edits
/// are passed over. `apply` of the splices is the text after the edits (LSP 3.17, "TextEdit[]").
///
/// It makes two passes over the text, goes along a short piece of each position's line, and sorts. Where two edits
/// overlap it sorts once more, to name the first pair. So it takes the time of the text and of n log n for n edits.
///
/// No range begins or ends inside a character: of a UTF-8 text `apply` leaves UTF-8.
pub fn resolve(
    alloc: Global,
    text: &str,
    enc: Encoding,
    edits: &[TextEdit],
) -> Result<Splices, EditsRefused>
    ensures fits { IfOk result (λ splices. Fits splices (length text.now)) }
    ensures boundaries { IfOk result (LieBetweenCharacters text.now) }
    ensures text_after { IfOk result (λ splices. spliced text.now splices ≡ edited text.now enc edits.now) }

    // They are the edits that aren't skipped, sorted stably.
    ensures permutation { IfOk result (IsPermutation (splices_of text.now enc edits.now)) }
    ensures sorted { IfOk result (IsSortedByKey (λ s. s.start) nat_cmp) }
    ensures stable { IfOk result (IsStableByKey (λ s. s.start) nat_cmp (splices_of text.now enc edits.now)) }

    // Memory may be wanting at any point.
    ensures ok { OnOk result (refusal text.now enc edits.now ≡ None) }
    ensures err { IfErr result (λ e. (e ≡ EditsRefused.Memory) ⊎ (refusal text.now enc edits.now ≡ Some e)) }
{
    let ranges = ranges_of(alloc, text, enc, edits)?;
    let mut splices = splices_of(alloc, edits, &ranges)?;
    sort_by_start(&mut splices)?;
    refuse_overlap(alloc, &ranges, &splices)?;
    Ok(Items::new(splices))
}

/// A splice for each edit that has a range.
fn splices_of(
    alloc: Global,
    edits: &[TextEdit],
    ranges: &[Option<TextRange>],
) -> Result<Vec<Splice>, Memory>
    requires { length ranges.now ≡ length edits.now }
    ensures { IfOk result (λ splices. splices.items ≡ filter_map (λ e. splice_in e.0 e.1) (zip edits.now ranges.now)) }
{
    let mut splices = Vec::new(alloc);
    for (number, edit) in edits.iter().enumerate() {
        if let Some(range) = ranges[number] {
            splices.push(Splice {
                start: range.start,
                end: range.end,
                text: edit.new_text.duplicate(alloc)?,
            })?;
        }
    }
    Ok(splices)
}

fn sort_by_start(splices: &mut Vec<Splice>) -> Result<(), Memory>
    ensures permutation { IsPermutation splices.old.items splices.new.items }
    ensures sorted { OnOk result (IsSortedByKey (λ s. s.start) nat_cmp splices.new.items) }
    ensures stable { IsStableByKey (λ s. s.start) nat_cmp splices.old.items splices.new.items }
{
    splices.sort_by_key(|splice| splice.start)?;
    Ok(())
}
