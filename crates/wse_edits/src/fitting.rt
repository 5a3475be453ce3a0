// How many edits from the front of a list fit one another.
ghost use Rattle.std.specs.Prelude.{◌≡◌, ◌+◌, ◌<◌, ◌≤◌, ◌↔◌, length, All, IsTrue, IfOk, IfSome, OnOk};
ghost use Rattle.std.specs.List.Sorted.{IsPermutation, IsSortedByKey, IsStableByKey};
ghost use Rattle.std.specs.Ordering.{nat_cmp};
ghost use Rattle.wse_edits.specs.Fitting.{FitBelow, FollowBelow, numbered_from};
ghost use Rattle.wse_edits.specs.Range.{Rises};

use crate::range::TextRange;
use std::alloc::Global;
use wse_path::Memory;

/// A range with the number of its edit.
#[derive(Clone, Copy)]
struct NumberedRange {
    start: usize,
    end: usize,
    number: usize,
}

/// How many from the front of the list fit one another, and no more do. It sorts the ranges, and then goes through
/// them about as often as their number has binary digits.
pub(crate) fn fitting(alloc: Global, ranges: &[Option<TextRange>]) -> Result<usize, Memory>
    requires { All (λ range. IfSome range Rises) ranges.now }
    ensures within { IfOk result (λ count. count ≤ length ranges.now) }
    ensures fit { IfOk result (FitBelow ranges.now) }
    ensures no_more { IfOk result (λ count. count < length ranges.now → ¬ FitBelow ranges.now (count + 1)) }
{
    let mut sorted = numbered(alloc, ranges)?;
    sort_by_start(&mut sorted)?;
    Ok(longest_front(&sorted, ranges.len()))
}

/// The ranges that there are, with their numbers.
fn numbered(alloc: Global, ranges: &[Option<TextRange>]) -> Result<Vec<NumberedRange>, Memory>
    ensures { IfOk result (λ numbered. numbered.items ≡ numbered_from 0 ranges.now) }
{
    let mut numbered = Vec::new(alloc);
    for (number, range) in ranges.iter().enumerate() {
        if let Some(range) = range {
            numbered.push(NumberedRange {
                start: range.start,
                end: range.end,
                number,
            })?;
        }
    }
    Ok(numbered)
}

fn sort_by_start(ranges: &mut Vec<NumberedRange>) -> Result<(), Memory>
    ensures permutation { IsPermutation ranges.old.items ranges.new.items }
    ensures sorted { OnOk result (IsSortedByKey (λ r. r.start) nat_cmp ranges.new.items) }
    ensures stable { IsStableByKey (λ r. r.start) nat_cmp ranges.old.items ranges.new.items }
{
    ranges.sort_by_key(|range| range.start)?;
    Ok(())
}

/// The greatest number, up to `count`, below which the ranges follow one another. It halves what is left to be
/// looked through.
fn longest_front(sorted: &[NumberedRange], count: usize) -> usize
    ensures within { result ≤ count }
    ensures follow { FollowBelow result sorted.now }
    ensures no_more { result < count → ¬ FollowBelow (result + 1) sorted.now }
{
    let mut front = 0;
    let mut limit = count;
    'search: while front < limit {
        let middle = limit - (limit - front) / 2;
        if follow_below(sorted, middle) {
            front = middle;
        } else {
            limit = middle - 1;
        }
    }
    front
}

/// Whether those of the ranges that have a number below `count` follow one another.
fn follow_below(sorted: &[NumberedRange], count: usize) -> bool
    ensures { IsTrue result ↔ FollowBelow count sorted.now }
{
    let mut reach = 0;
    for range in sorted {
        if range.number < count {
            if range.start < reach {
                return false;
            }
            reach = reach.max(range.end);
        }
    }
    true
}
