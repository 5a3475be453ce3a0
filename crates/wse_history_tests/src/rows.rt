// Worked cases of edits.
use crate::given::{edit_of, fresh, give, limits_of};
use crate::said::said;
use std::alloc::Global;
use std::test::Fail;
use wse_path::Command;

// The limits, the edits, cut at `|`, of which each may begin with its failure kind and `:`, and the answer to the last.
const ROWS: [(&str, &str, &str); 14] = [
    (
        "",
        "abort: create a; delete x; create b",
        " a 1 element 1 failed 1",
    ),
    (
        "",
        "transactional: create a; delete x; create b",
        " failed 1",
    ),
    ("", "undo: create a; delete x; create b", " a 2 failed 1"),
    ("", "abort: create a | abort: create a", " failed 0"),
    ("", "abort: create a | abort: create a ignore", ""),
    (
        "",
        "abort: create p; ?create q; delete r",
        " p 1 element 1 failed 2",
    ),
    (
        "",
        "abort: create d/x; create d/y | abort: rename d e",
        " d/x 2 d/y 2 e/x 1 e/y 1 element 2",
    ),
    (
        "weight=515",
        "abort: create a | abort: edit a - 0=xy",
        " weight 516",
    ),
    (
        "weight=516",
        "abort: create a | abort: edit a - 0=xy",
        " a 2 element 2",
    ),
    ("known=33", "abort: create a | abort: create b", " known 66"),
    (
        "known=66",
        "abort: create a | abort: create b",
        " b 1 element 2",
    ),
    (
        "serial=1",
        "abort: create a | undo: create b; delete x",
        " serial 2",
    ),
    (
        "serial=2",
        "abort: create a | undo: create b; delete x",
        " b 2 failed 1",
    ),
    (
        "weight=257 serial=1",
        "abort: create a | abort: edit a 7 0=x",
        " failed 0",
    ),
];

fn last_answer(alloc: Global, row: &(&str, &str, &str)) -> Result<String, Fail> {
    let mut history = fresh(alloc, limits_of(row.0))?;
    let mut text = String::new(alloc);
    for asked in row.1.split('|') {
        let (kind, operations) = asked.split_once(':').unwrap_or(("", asked));
        let edit = edit_of(alloc, kind, operations)?;
        let command = Command::Edit { by: 1, edit };
        text = said(alloc, &give(alloc, &mut history, &command)?)?;
    }
    Ok(text)
}

fn holds(alloc: Global, row: &(&str, &str, &str)) -> Result<bool, Fail> {
    Ok(last_answer(alloc, row)?.as_str() == row.2)
}

#[test]
fn edits_are_answered(rt: HostRuntime) -> Result<(), Fail> {
    for row in &ROWS {
        assert!(rt; holds(rt.alloc(), row)?);
    }
    Ok(())
}
