// Splices of a short text.
ghost use Rattle.std.specs.Prelude.{◌≡◌, ◌≤◌, All, IsTrue, length};
ghost use Rattle.std.specs.List.{AllAdjacentBelow};
ghost use Rattle.wse_splice.specs.Splice.{Fits};

use std::alloc::Global;
use std::test::Fail;
use wse_path::{Duplicate, Memory, Text};
use wse_splice::{Splice, apply};

fn lie_within(splices: &[Splice], len: usize) -> bool
    ensures { IsTrue result → All (λ s. (s.start ≤ s.end) × (s.end ≤ len)) splices.now }
{
    splices
        .iter()
        .all(|splice| splice.start <= splice.end && splice.end <= len)
}

fn follow_one_another(splices: &[Splice]) -> bool
    ensures { IsTrue result → AllAdjacentBelow (λ s t. s.end ≤ t.start) splices.now (length splices.now) }
{
    splices.is_sorted_by(|splice, next| splice.end <= next.start)
}

fn fit(splices: &[Splice], len: usize) -> bool
    ensures { IsTrue result → Fits splices.now len }
{
    lie_within(splices, len) && follow_one_another(splices)
}

/// A start, an end, and what is put in there.
type Given = (usize, usize, &'static str);

fn splices_of(alloc: Global, list: &[Given]) -> Result<Vec<Splice>, Memory> {
    let mut splices = Vec::new(alloc);
    for (start, end, text) in list {
        let text = Text::new(String::from_str(alloc, text)?);
        splices.push(Splice {
            start: *start,
            end: *end,
            text,
        })?;
    }
    Ok(splices)
}

/// The splices fit the text `abc` and make that text of it.
fn makes(alloc: Global, list: &[Given], want: &str) -> Result<bool, Memory> {
    let splices = splices_of(alloc, list)?;
    if !fit(&splices, 3) {
        return Ok(false);
    }
    let after = apply(alloc, b"abc", &splices)?;
    Ok(after.as_slice() == want.as_bytes())
}

#[test]
fn texts_stand_in_place_of_ranges(rt: HostRuntime) -> Result<(), Fail> {
    let alloc = rt.alloc();
    let inserts_and_a_replace = [(1, 1, "1"), (1, 1, "2"), (1, 2, "Z")];
    assert!(rt; makes(alloc, &inserts_and_a_replace, "a12Zc")?);
    assert!(rt; makes(alloc, &[], "abc")?);
    assert!(rt; makes(alloc, &[(0, 3, "")], "")?);
    assert!(rt; makes(alloc, &[(3, 3, "d")], "abcd")?);
    Ok(())
}

/// The copy of a splice is put in as the splice is.
fn copies_make(alloc: Global, list: &[Given], want: &str) -> Result<bool, Memory> {
    let mut copies = Vec::new(alloc);
    for splice in &splices_of(alloc, list)? {
        copies.push(splice.duplicate(alloc)?)?;
    }
    if !fit(&copies, 3) {
        return Ok(false);
    }
    let after = apply(alloc, b"abc", &copies)?;
    Ok(after.as_slice() == want.as_bytes())
}

#[test]
fn copies_are_equal(rt: HostRuntime) -> Result<(), Fail> {
    assert!(rt; copies_make(rt.alloc(), &[(1, 1, "1"), (1, 2, "Z")], "a1Zc")?);
    Ok(())
}
