// Worked cases of undos and redos, and of the commands that meet them.
use crate::asked::command_of;
use crate::given::{fresh, give, limits_of, path};
use crate::told::told;
use std::alloc::Global;
use std::test::Fail;
use wse_history::History;
use wse_path::{Bytes, Command};

// The limits, files that are there and empty, the commands, cut at `|`, and their answers.
const ROWS: [(&str, &str, &str, &str); 20] = [
    (
        "",
        "d/x d/y d/z",
        "rename d e|undo e/x",
        " d/x 2 d/y 2 d/z 2 e/x 1 e/y 1 e/z 1 element 1| done 1 d/x 3 d/y 3 d/z 3 e/x 2 e/y 2 e/z 2|",
    ),
    (
        "",
        "a b",
        "edit a - 0=x; edit b - 0=x|edit b - 0=y|undo a|look b",
        " a 2 b 2 element 1| b 3 element 2| split 1 changed b done 3 a 3| bytes 2 version 3 past 2|",
    ),
    (
        "",
        "a",
        "rename a b|edit b - 0=x|undo a|undo b",
        " a 2 b 1 element 1| b 2 element 2| changed b flushed a b| nothing|",
    ),
    (
        "",
        "a b",
        "edit a - 0=x; edit b - 0=x|lock b by 2|undo a|undo b",
        " a 2 b 2 element 1| taken| split 1 locked b done 2 a 3| held b|",
    ),
    (
        "",
        "a b",
        "edit a - 0=x; edit b - 0=x|lock b by 2|undo a|undo b by 2|lock b|unlock b|leave by 2|lock b",
        " a 2 b 2 element 1| taken| split 1 locked b done 2 a 3| done 3 b 3| held b| free b| left| taken|",
    ),
    (
        "",
        "a b",
        "edit a - 0=x; edit b - 0=x|undo a|edit b - 0=y|redo a",
        " a 2 b 2 element 1| done 1 a 3 b 3| b 4 element 2| split 1 removed b done 3 a 4|",
    ),
    (
        "",
        "a",
        "edit a - 0=x|outside a zz|undo a|look a|outside a zz",
        " a 2 element 1| a 3| invalid a flushed a| bytes 2 version 3| same|",
    ),
    (
        "",
        "d",
        "delete d|create d/x|undo d|delete d/x|undo d",
        " d 2 element 1| d/x 1 element 2| for 1 blocked d/x| d/x 2 element 3| done 1 d 3|",
    ),
    (
        "",
        "d",
        "delete d|outside d/y q|outside d/x q|undo d",
        " d 2 element 1| d/y 1| d/x 1| for 1 blocked d/x d/y|",
    ),
    (
        "",
        "a b",
        "edit a - 0=x; edit b - 0=x|undo a cancel|undo a this|undo c",
        " a 2 b 2 element 1| cancelled 1| split 1 chosen done 2 a 3| nothing|",
    ),
    (
        "",
        "a",
        "edit a - 0=x|undo a|redo a|undo a|edit a - 0=y|redo a",
        " a 2 element 1| done 1 a 3| done 1 a 4| done 1 a 5| a 6 element 2| nothing|",
    ),
    (
        "",
        "a",
        "edit a - 0=x|forget a|forget a|undo a",
        " a 2 element 1| forgotten| none| nothing|",
    ),
    ("", "d/x", "outside d z|outside d", " blocked d/x| same|"),
    (
        "",
        "a b",
        "edit a - 0=x; edit b - 0=x|outside a q|undo a|look b",
        " a 2 b 2 element 1| a 3| split 1 invalid a invalid a flushed a| bytes 1 version 2 past 3|",
    ),
    (
        "",
        "a b",
        "edit a - 0=x; edit b - 0=x|lock a by 2|undo a|undo b",
        " a 2 b 2 element 1| taken| split 1 locked a held a| done 3 b 3|",
    ),
    (
        "serial=2",
        "a",
        "edit a - 0=x|undo a",
        " a 2 element 1| for 1 serial 3|",
    ),
    (
        "serial=3",
        "a",
        "edit a - 0=x|undo a|redo a",
        " a 2 element 1| done 1 a 3| for 1 serial 4|",
    ),
    (
        "serial=4",
        "a b",
        "edit a - 0=x; edit b - 0=x|edit b - 0=y|undo a",
        " a 2 b 2 element 1| b 3 element 2| for 1 serial 5|",
    ),
    (
        "files=1",
        "a",
        "delete a|create b|undo a|delete b|undo a",
        " a 2 element 1| b 1 element 2| for 1 files 2| b 2 element 3| done 1 a 3|",
    ),
    (
        "files=1",
        "",
        "create a|undo a|create b|redo a",
        " a 1 element 1| done 1 a 2| b 1 element 2| for 1 files 2|",
    ),
];

/// Reports that the files are there and empty.
fn make(alloc: Global, history: &mut History, files: &str) -> Result<(), Fail> {
    for file in files.split(' ') {
        if !file.is_empty() {
            let command = Command::Outside {
                path: path(alloc, file)?,
                content: Some(Bytes::new(Vec::new(alloc))),
            };
            give(alloc, history, &command)?;
        }
    }
    Ok(())
}

fn answers(alloc: Global, history: &mut History, asked: &str) -> Result<String, Fail> {
    let mut text = String::new(alloc);
    for words in asked.split('|') {
        let command = command_of(alloc, words)?;
        let answer = give(alloc, history, &command)?;
        let words = told(alloc, &answer)?;
        text.push_str(words.as_str())?;
        text.push('|')?;
    }
    Ok(text)
}

fn holds(alloc: Global, row: &(&str, &str, &str, &str)) -> Result<bool, Fail> {
    let mut history = fresh(alloc, limits_of(row.0))?;
    make(alloc, &mut history, row.1)?;
    let text = answers(alloc, &mut history, row.2)?;
    Ok(text.as_str() == row.3)
}

#[test]
fn undos_and_redos_are_answered(rt: HostRuntime) -> Result<(), Fail> {
    for row in &ROWS {
        assert!(rt; holds(rt.alloc(), row)?);
    }
    Ok(())
}
