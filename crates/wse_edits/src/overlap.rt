// Pairs of edits that don't fit.
ghost use Rattle.std.specs.Prelude.{◌≡◌, ◌≤◌, ◌⊎◌, length, position, All, IsTrue, IfErr, IfOk, IfSome, OnOk};
ghost use Rattle.std.specs.List.{AllAdjacentBelow};
ghost use Rattle.wse_edits.specs.Range.{Rises};
ghost use Rattle.wse_edits.specs.Refusal.{fits_pair, overlaps, overlap_of};

use crate::fitting::fitting;
use crate::range::TextRange;
use crate::refused::EditsRefused;
use std::alloc::Global;
use wse_path::Memory;
use wse_splice::Splice;

/// Refuses the first pair of ranges that overlap. `sorted` are the splices of the ranges, sorted by start: only where
/// neighbours of these overlap is the pair looked for.
pub(crate) fn refuse_overlap(
    alloc: Global,
    ranges: &[Option<TextRange>],
    sorted: &[Splice],
) -> Result<(), EditsRefused>
    requires rise { All (λ range. IfSome range Rises) ranges.now }
    requires neighbours { AllAdjacentBelow (λ s t. s.end ≤ t.start) sorted.now (length sorted.now) → overlap_of ranges.now ≡ None }
    ensures ok { OnOk result (overlap_of ranges.now ≡ None) }
    ensures err { IfErr result (λ e. (e ≡ EditsRefused.Memory) ⊎ (overlap_of ranges.now ≡ Some e)) }
{
    if follow_one_another(sorted) {
        return Ok(());
    }
    match first_overlap(alloc, ranges)? {
        Some(overlap) => Err(overlap),
        None => Ok(()),
    }
}

fn follow_one_another(splices: &[Splice]) -> bool
    ensures { IsTrue result → AllAdjacentBelow (λ s t. s.end ≤ t.start) splices.now (length splices.now) }
{
    splices.is_sorted_by(|splice, next| splice.end <= next.start)
}

fn first_overlap(
    alloc: Global,
    ranges: &[Option<TextRange>],
) -> Result<Option<EditsRefused>, Memory>
    requires { All (λ range. IfSome range Rises) ranges.now }
    ensures { IfOk result (λ overlap. overlap ≡ overlap_of ranges.now) }
{
    let second = fitting(alloc, ranges)?;
    if second == ranges.len() {
        return Ok(None);
    }
    match first_overlapping(&ranges[..second], &ranges[second]) {
        Some(first) => Ok(Some(EditsRefused::Overlap {
            first: first as u64,
            second: second as u64,
        })),
        None => Ok(None),
    }
}

/// The number of the first range that overlaps a later one.
fn first_overlapping(ranges: &[Option<TextRange>], later: &Option<TextRange>) -> Option<usize>
    ensures { result ≡ position (λ range. overlaps range later.now) ranges.now }
{
    ranges.iter().position(|earlier| overlap(earlier, later))
}

fn overlap(earlier: &Option<TextRange>, later: &Option<TextRange>) -> bool
    ensures { result ≡ overlaps earlier.now later.now }
{
    match (earlier, later) {
        (Some(earlier), Some(later)) => !fit(earlier, later),
        _ => false,
    }
}

fn fit(earlier: &TextRange, later: &TextRange) -> bool
    ensures { result ≡ fits_pair earlier.now later.now }
{
    earlier.end <= later.start || (later.end <= earlier.start && later.start < earlier.start)
}
