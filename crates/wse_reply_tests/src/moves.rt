// Answers to an undo or a redo.
use crate::given::{changed, files, reads};
use std::alloc::Global;
use std::test::Fail;
use wse_history::{Answer, MoveEnd, SplitNote};
use wse_path::{Hit, Which};
use wse_rules::Cause;

const ENDS: [(&str, &str); 7] = [
    ("nothing", r#"{"n":7,"result":"nothing"}"#),
    ("cancelled", r#"{"element":3,"n":7,"result":"cancelled"}"#),
    (
        "done",
        r#"{"changed":{"a":2,"b/c":2},"element":3,"n":7,"result":"done"}"#,
    ),
    ("locked", r#"{"files":["a","b/c"],"n":7,"result":"locked"}"#),
    (
        "flushed",
        r#"{"cause":"invalid","dropped":["d","e"],"files":["a","b/c"],"n":7,"result":"flushed"}"#,
    ),
    (
        "in the way",
        r#"{"element":3,"files":["a","b/c"],"n":7,"result":"in the way"}"#,
    ),
    (
        "limit",
        r#"{"element":3,"n":7,"result":"limit","which":"file bytes","would_be":9}"#,
    ),
];

const NOTES: [(&str, &str); 6] = [
    (
        "removed",
        r#"{"n":7,"result":"nothing","split":{"cause":"removed","files":["a"],"id":4}}"#,
    ),
    (
        "changed",
        r#"{"n":7,"result":"nothing","split":{"cause":"changed","files":["a"],"id":4}}"#,
    ),
    (
        "locked",
        r#"{"n":7,"result":"nothing","split":{"cause":"locked","files":["a"],"id":4}}"#,
    ),
    (
        "invalid",
        r#"{"n":7,"result":"nothing","split":{"cause":"invalid","files":["a"],"id":4}}"#,
    ),
    (
        "chosen",
        r#"{"n":7,"result":"nothing","split":{"cause":"chosen","files":["a"],"id":4}}"#,
    ),
    (
        "meantime",
        r#"{"n":7,"result":"nothing","split":{"cause":"meantime","files":["a"],"id":4}}"#,
    ),
];

fn end(alloc: Global, name: &str) -> Result<MoveEnd, Fail> {
    let id = 3;
    let end = match name {
        "cancelled" => MoveEnd::Cancelled { id },
        "done" => MoveEnd::Done {
            id,
            changed: changed(alloc, "a b/c")?,
        },
        "locked" => MoveEnd::Locked {
            files: files(alloc, "a b/c")?,
        },
        "flushed" => MoveEnd::Flushed {
            cause: Cause::Invalid,
            files: files(alloc, "a b/c")?,
            dropped: files(alloc, "d e")?,
        },
        "in the way" => MoveEnd::InTheWay {
            id,
            files: files(alloc, "a b/c")?,
        },
        "limit" => MoveEnd::Limit {
            id,
            hit: Hit {
                which: Which::FileBytes,
                would_be: 9,
            },
        },
        _ => MoveEnd::Nothing,
    };
    Ok(end)
}

fn ends_as(alloc: Global, name: &str, text: &str) -> Result<bool, Fail> {
    let end = end(alloc, name)?;
    reads(alloc, Answer::Move { split: None, end }, text)
}

fn cause(name: &str) -> Cause {
    match name {
        "removed" => Cause::Removed,
        "changed" => Cause::Changed,
        "locked" => Cause::Locked,
        "invalid" => Cause::Invalid,
        "chosen" => Cause::Chosen,
        _ => Cause::Meantime,
    }
}

fn notes(alloc: Global, name: &str, text: &str) -> Result<bool, Fail> {
    let note = SplitNote {
        id: 4,
        cause: cause(name),
        files: files(alloc, "a")?,
    };
    let answer = Answer::Move {
        split: Some(note),
        end: MoveEnd::Nothing,
    };
    reads(alloc, answer, text)
}

#[test]
fn moves_are_answered_as_they_end(rt: HostRuntime) -> Result<(), Fail> {
    let alloc = rt.alloc();
    for (name, text) in &ENDS {
        assert!(rt; ends_as(alloc, name, text)?);
    }
    Ok(())
}

#[test]
fn a_split_is_told_beside_the_end(rt: HostRuntime) -> Result<(), Fail> {
    let alloc = rt.alloc();
    for (name, text) in &NOTES {
        assert!(rt; notes(alloc, name, text)?);
    }
    Ok(())
}
