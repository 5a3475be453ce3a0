// Worked cases.
use crate::given::{choice, locks, path, stacks};
use crate::said::said;
use std::alloc::Global;
use std::test::Fail;
use wse_path::Direction;
use wse_rules::verdict;

// What participant 1 asks for, who holds which files, the elements, and what becomes of it.
const UNDONE: [(&str, &str, &str, &str); 20] = [
    ("a all", "", "", "nothing"),
    ("a all", "", "1 text a b;2 text b", "split 1 changed: b"),
    ("b all", "", "1 text a b;2 text b", "go 2"),
    (
        "a all",
        "",
        "1 move a b;2 text b",
        "flush changed: b dropped: a b",
    ),
    ("a all", "2 b", "1 text a b", "split 1 locked: b"),
    ("a all", "2 c", "1 text a b", "go 1"),
    ("a all", "1 a b", "1 text a b", "go 1"),
    ("a all", "", "1 text a b#", "split 1 removed: b"),
    ("a all", "", "1 move a b#", "flush removed: b dropped: a b"),
    (
        "a all",
        "2 c",
        "1 text a b# c d e!;2 text c d",
        "split 1 removed: b",
    ),
    (
        "a all",
        "2 c",
        "1 text a c d e!;2 text d",
        "split 1 changed: d",
    ),
    ("a all", "2 c d", "1 text a! c d", "split 1 locked: c d"),
    (
        "a all",
        "",
        "1 move a! b c!",
        "flush invalid: a c dropped: a b c",
    ),
    ("a all", "2 a", "1 text a!", "flush invalid: a dropped: a"),
    ("a cancel", "2 a", "1 text a", "locked: a"),
    ("a cancel", "", "1 text a", "go 1"),
    ("a this", "", "1 text a b", "split 1 chosen:"),
    ("a cancel", "", "1 text a b", "cancelled 1"),
    ("a cancel", "", "1 move a b", "go 1"),
    ("a b c", "", "1 text a b", "split 1 meantime: b c"),
];

// The same of a redo.
const REDONE: [(&str, &str, &str, &str); 9] = [
    ("a all", "", "1 text a b", "nothing"),
    ("a all", "", "1 -text a b#;2 text b", "split 1 removed: b"),
    (
        "a all",
        "",
        "1 -move a b#;2 text b",
        "flush removed: b dropped: a b",
    ),
    ("b all", "", "1 -text b;2 -text a b", "go 1"),
    ("a all", "", "1 -text b;2 -text a b", "split 2 changed: b"),
    ("a this", "", "1 -text a b", "go 1"),
    ("a cancel", "", "1 -text a b", "go 1"),
    ("a b", "", "1 -text a b", "go 1"),
    (
        "a all",
        "2 b",
        "1 -move a b",
        "flush locked: b dropped: a b",
    ),
];

fn holds(
    alloc: Global,
    row: &(&str, &str, &str, &str),
    direction: Direction,
) -> Result<bool, Fail> {
    let Some((file, wanted)) = row.0.split_once(' ') else {
        return Ok(false);
    };
    let stacks = stacks(alloc, row.2)?;
    let locks = locks(alloc, row.1)?;
    let path = path(alloc, file)?;
    let choice = choice(alloc, wanted)?;
    let ruling = verdict(alloc, &stacks, &locks, 1, &path, direction, choice)?;
    Ok(said(alloc, &ruling)?.as_str() == row.3)
}

#[test]
fn undos_are_judged(rt: HostRuntime) -> Result<(), Fail> {
    for row in &UNDONE {
        assert!(rt; holds(rt.alloc(), row, Direction::Back)?);
    }
    Ok(())
}

#[test]
fn redos_are_judged(rt: HostRuntime) -> Result<(), Fail> {
    for row in &REDONE {
        assert!(rt; holds(rt.alloc(), row, Direction::Forward)?);
    }
    Ok(())
}
