// Lines below the root `file:///w`, and the commands that they are. A row is a line, ` => `, and what is read of it.
use crate::shown::shown;
use std::alloc::{AllocError, Global};
use std::test::Fail;
use wse_json::read_command;
use wse_uri::root_of;

/// What is read of the line.
fn read(alloc: Global, line: &[u8]) -> Result<String, Fail> {
    let root = root_of(alloc, "file:///w")?;
    shown(alloc, &read_command(alloc, &root, line))
}

/// Whether the line of the row reads as the row says.
fn is_right(alloc: Global, row: &str) -> Result<bool, Fail> {
    let (line, want) = row.split_once(" => ").ok_or("a row without an arrow")?;
    Ok(read(alloc, line.as_bytes())?.as_str() == want)
}

/// The same, where the row has what stands behind `"edit":` in an edit with standard values.
fn is_right_edit(alloc: Global, row: &str) -> Result<bool, Fail> {
    let (edit, want) = row.split_once(" => ").ok_or("a row without an arrow")?;
    let line = format!(in alloc; r#"{{"do":"edit","edit":{edit}}}"#)?;
    Ok(read(alloc, line.as_bytes())?.as_str() == want)
}

fn are_right(alloc: Global, rows: &str) -> Result<bool, Fail> {
    for row in rows.lines() {
        if !is_right(alloc, row)? {
            return Ok(false);
        }
    }
    Ok(true)
}

fn are_right_edits(alloc: Global, rows: &str) -> Result<bool, Fail> {
    for row in rows.lines() {
        if !is_right_edit(alloc, row)? {
            return Ok(false);
        }
    }
    Ok(true)
}

/// Commands other than edits.
const COMMANDS: &str = r#"{"do":"leave"} => 0 leave
{"do":"leave","by":4294967295} => 4294967295 leave
{"do":"leave","by":null,"uri":7,"more":[1]} => 0 leave
{"do":"undo","uri":"file:///w/a"} => 0 undo a all
{"do":"redo","by":2,"uri":"file:///w/d/a%20b","choice":"this"} => 2 redo d/a b this
{"do":"undo","uri":"file:///w/a","choice":null} => 0 undo a all
{"do":"undo","uri":"file:///w/a","choice":"all"} => 0 undo a all
{"do":"redo","uri":"file:///w/a","choice":"cancel"} => 0 redo a cancel
{"do":"lock","uris":[]} => 0 lock
{"do":"lock","by":1,"uris":["file:///w/d/b","file:///w/a"]} => 1 lock d/b a
{"do":"unlock","by":3,"uris":["file:///w/a","file:///w/a"]} => 3 unlock a a
{"do":"outside","by":7,"uri":"file:///w/a"} => outside a absent
{"do":"outside","uri":"file:///w/a","text":null} => outside a absent
{"do":"outside","uri":"file:///w/a","text":""} => outside a ''
{"do":"outside","uri":"file:///w/a","text":"é o"} => outside a 'é o'
{"do":"forget","uri":"file:///w/a"} => forget a
{"do":"look","uri":"file:///w/a"} => look a
{"do":"look","uri":"file:///w/a","do":"forget","uri":"file:///w/b"} => forget b"#;

#[test]
fn each_command_is_read(rt: HostRuntime) -> Result<(), Fail> {
    assert!(rt; are_right(rt.alloc(), COMMANDS)?);
    Ok(())
}

/// The members around an edit.
const HEADS: &str = r#"{"do":"edit","edit":{}} => 0 edit '' abort 16
{"do":"edit","by":5,"label":"L","edit":{"more":1}} => 5 edit 'L' abort 16
{"do":"edit","label":null,"failure":null,"encoding":null,"confirmed":null,"edit":{}} => 0 edit '' abort 16
{"do":"edit","failure":"abort","encoding":"utf-16","edit":{}} => 0 edit '' abort 16
{"do":"edit","failure":"transactional","encoding":"utf-8","edit":{}} => 0 edit '' transactional 8
{"do":"edit","failure":"textOnlyTransactional","encoding":"utf-32","edit":{}} => 0 edit '' text only transactional 32
{"do":"edit","failure":"undo","confirmed":[],"edit":{}} => 0 edit '' undo 16"#;

#[test]
fn members_around_an_edit_have_standard_values(rt: HostRuntime) -> Result<(), Fail> {
    assert!(rt; are_right(rt.alloc(), HEADS)?);
    Ok(())
}

/// Edits.
const EDITS: &str =
    r#"{"documentChanges":null,"changes":null,"changeAnnotations":null} => 0 edit '' abort 16
{"documentChanges":[],"changes":7} => 0 edit '' abort 16
{"documentChanges":null,"changes":{"file:///w/a":[]}} => 0 edit '' abort 16; text a any
{"documentChanges":[{"kind":"create","uri":"file:///w/a"}],"changes":{"x":7}} => 0 edit '' abort 16; create a false false
{"documentChanges":[{"kind":"create","uri":"file:///w/a","options":{"overwrite":true}}]} => 0 edit '' abort 16; create a true false
{"documentChanges":[{"kind":"create","uri":"file:///w/a","options":{"ignoreIfExists":true,"overwrite":null,"recursive":7}}]} => 0 edit '' abort 16; create a false true
{"documentChanges":[{"newUri":"file:///w/b","oldUri":"file:///w/a","kind":"rename","options":null}]} => 0 edit '' abort 16; rename a b false false
{"documentChanges":[{"kind":"rename","oldUri":"file:///w/a","newUri":"file:///w/b","options":{"overwrite":true,"ignoreIfExists":false}}]} => 0 edit '' abort 16; rename a b true false
{"documentChanges":[{"kind":"create","uri":"file:///w/a","kind":"delete","uri":"file:///w/b"}]} => 0 edit '' abort 16; delete b false false
{"documentChanges":[{"kind":"delete","uri":"file:///w/d","options":{"recursive":true}}]} => 0 edit '' abort 16; delete d true false
{"documentChanges":[{"kind":"delete","uri":"file:///w/d","options":{"ignoreIfNotExists":true,"overwrite":7}}]} => 0 edit '' abort 16; delete d false true
{"documentChanges":[{"kind":null,"textDocument":{"uri":"file:///w/a"},"edits":[],"annotationId":7}]} => 0 edit '' abort 16; text a any
{"documentChanges":[{"textDocument":{"uri":"file:///w/a","version":null},"edits":[{"range":{"start":{"line":1,"character":2},"end":{"line":3,"character":4}},"newText":"x"}]}]} => 0 edit '' abort 16; text a any [1:2-3:4 'x']
{"documentChanges":[{"textDocument":{"uri":"file:///w/a","version":-2147483648},"edits":[]},{"textDocument":{"uri":"file:///w/a","version":2147483647},"edits":[]}]} => 0 edit '' abort 16; text a -2147483648; text a 2147483647
{"documentChanges":[{"textDocument":{"uri":"file:///w/a","version":0},"edits":[{"range":{"start":{"line":18446744073709551615,"character":0},"end":{"line":0,"character":18446744073709551615}},"newText":""}]}]} => 0 edit '' abort 16; text a 0 [18446744073709551615:0-0:18446744073709551615 '']
{"changes":{"file:///w/a.txt":[{"range":{"start":{"line":0,"character":0},"end":{"line":0,"character":0}},"newText":"2"}],"file:///w/%61.txt":[{"range":{"start":{"line":0,"character":0},"end":{"line":0,"character":0}},"newText":"1"}]}} => 0 edit '' abort 16; text a.txt any [0:0-0:0 '1']; text a.txt any [0:0-0:0 '2']"#;

#[test]
fn edits_are_read(rt: HostRuntime) -> Result<(), Fail> {
    assert!(rt; are_right_edits(rt.alloc(), EDITS)?);
    Ok(())
}

/// Annotations, and what waits for a confirmation.
const CONFIRMATIONS: &str =
    r#"{"do":"edit","edit":{"documentChanges":[{"kind":"create","uri":"file:///w/p"},{"kind":"create","uri":"file:///w/q","annotationId":"k"},{"kind":"delete","uri":"file:///w/r"}],"changeAnnotations":{"k":{"label":"K","needsConfirmation":true}}}} => 0 edit '' abort 16; create p false false; skipped create q false false; delete r false false
{"do":"edit","confirmed":["x","k","k"],"edit":{"documentChanges":[{"kind":"create","uri":"file:///w/q","annotationId":"k"}],"changeAnnotations":{"k":{"label":"K","needsConfirmation":true}}}} => 0 edit '' abort 16; create q false false
{"do":"edit","confirmed":["j"],"edit":{"documentChanges":[{"kind":"rename","oldUri":"file:///w/q","newUri":"file:///w/r","annotationId":"k"},{"kind":"delete","uri":"file:///w/q","annotationId":"j"}],"changeAnnotations":{"k":{"label":"K","needsConfirmation":true,"description":"d"},"j":{"label":"","needsConfirmation":true,"description":null}}}} => 0 edit '' abort 16; skipped rename q r false false; delete q false false
{"do":"edit","edit":{"documentChanges":[{"kind":"delete","uri":"file:///w/q","annotationId":"k"},{"kind":"delete","uri":"file:///w/q","annotationId":null}],"changeAnnotations":{"k":{"label":"K","needsConfirmation":null}}}} => 0 edit '' abort 16; delete q false false; delete q false false
{"do":"edit","edit":{"changes":{"file:///w/a":[{"range":{"start":{"line":0,"character":0},"end":{"line":0,"character":1}},"newText":"x","annotationId":"k"},{"range":{"start":{"line":0,"character":2},"end":{"line":0,"character":3}},"newText":"y"}]},"changeAnnotations":{"k":{"label":"K","needsConfirmation":true}}}} => 0 edit '' abort 16; text a any [skipped 0:0-0:1 'x'] [0:2-0:3 'y']"#;

#[test]
fn what_waits_for_a_confirmation_is_skipped(rt: HostRuntime) -> Result<(), Fail> {
    assert!(rt; are_right(rt.alloc(), CONFIRMATIONS)?);
    Ok(())
}

/// A rename of a name and its file, as a language server sends it.
const RENAME: &str =
    r#"{"by":1,"do":"edit","label":"Rename Point","failure":"textOnlyTransactional","confirmed":["m"],"edit":{"documentChanges":[{"textDocument":{"uri":"file:///w/src/point.rs","version":1},"edits":[{"range":{"start":{"line":0,"character":11},"end":{"line":0,"character":16}},"newText":"Spot"}]},{"textDocument":{"uri":"file:///w/src/main.rs","version":1},"edits":[{"range":{"start":{"line":0,"character":4},"end":{"line":0,"character":9}},"newText":"spot"},{"range":{"start":{"line":0,"character":11},"end":{"line":0,"character":16}},"newText":"Spot"}]},{"textDocument":{"uri":"file:///w/src/lib.rs","version":1},"edits":[{"range":{"start":{"line":0,"character":4},"end":{"line":0,"character":9}},"newText":"spot"}]},{"kind":"rename","oldUri":"file:///w/src/point.rs","newUri":"file:///w/src/spot.rs","annotationId":"m"}],"changeAnnotations":{"m":{"label":"Move file","needsConfirmation":true}}}} => 1 edit 'Rename Point' text only transactional 16; text src/point.rs 1 [0:11-0:16 'Spot']; text src/main.rs 1 [0:4-0:9 'spot'] [0:11-0:16 'Spot']; text src/lib.rs 1 [0:4-0:9 'spot']; rename src/point.rs src/spot.rs false false"#;

#[test]
fn a_language_servers_rename_is_read(rt: HostRuntime) -> Result<(), Fail> {
    assert!(rt; is_right(rt.alloc(), RENAME)?);
    Ok(())
}

/// Lines with a check that fails before the edit.
const REFUSED: &str = r#"{ => not JSON
{} {} => not JSON
{"by":1e400,"do":"leave"} => not JSON
{"do":"\ud800"} => not JSON
[] => field ''
7 => field ''
null => field ''
{} => field '/do'
{"do":null} => field '/do'
{"do":7} => field '/do'
{"do":"x"} => field '/do'
{"do":"Edit"} => field '/do'
{"by":4294967296,"do":"x"} => field '/by'
{"do":"x","by":-1} => field '/by'
{"do":"leave","by":-0} => field '/by'
{"do":"leave","by":1.0} => field '/by'
{"do":"leave","by":1e3} => field '/by'
{"do":"leave","by":"1"} => field '/by'
{"do":"leave","by":18446744073709551616} => field '/by'
{"do":"undo"} => field '/uri'
{"do":"undo","uri":null,"choice":7} => field '/uri'
{"do":"undo","uri":["file:///w/a"]} => field '/uri'
{"do":"undo","uri":"http://h/a"} => uri '/uri' NotFile
{"do":"redo","choice":7,"uri":"file:///w/"} => uri '/uri' IsRoot
{"do":"redo","uri":"file:///w/a","choice":7} => field '/choice'
{"do":"undo","uri":"file:///w/a","choice":"turned"} => field '/choice'
{"do":"lock"} => field '/uris'
{"do":"lock","uris":{"file:///w/a":1}} => field '/uris'
{"do":"lock","uris":["file:///w/a",null]} => field '/uris/1'
{"do":"unlock","uris":["file:///w/a","file:///v/a",7]} => uri '/uris/1' OutsideRoot
{"do":"outside","text":7} => field '/uri'
{"do":"outside","uri":"file:///w/a","text":7} => field '/text'
{"do":"forget","uri":"file:///w/%FF"} => uri '/uri' Escape { segment: 0 }
{"do":"look","uri":"w/a"} => uri '/uri' NotUrl
{"do":"edit","label":7,"failure":7} => field '/label'
{"do":"edit","failure":"Abort","label":"l","encoding":7} => field '/failure'
{"do":"edit","failure":"no"} => field '/failure'
{"do":"edit","encoding":"utf-7","confirmed":7} => field '/encoding'
{"do":"edit","confirmed":{},"edit":7} => field '/confirmed'
{"do":"edit","confirmed":["a",7,8]} => field '/confirmed/1'
{"do":"edit"} => field '/edit'
{"do":"edit","edit":null} => field '/edit'
{"do":"edit","edit":[]} => field '/edit'"#;

#[test]
fn the_first_check_that_fails_is_told(rt: HostRuntime) -> Result<(), Fail> {
    assert!(rt; are_right(rt.alloc(), REFUSED)?);
    Ok(())
}

/// Edits with a check that fails.
const REFUSED_EDITS: &str =
    r#"{"changeAnnotations":7,"documentChanges":7} => field '/edit/changeAnnotations'
{"changeAnnotations":{"b":7,"a":{}}} => field '/edit/changeAnnotations/a/label'
{"changeAnnotations":{"a/~":7}} => field '/edit/changeAnnotations/a~1~0'
{"changeAnnotations":{"a":{"label":"l","needsConfirmation":1,"description":7}}} => field '/edit/changeAnnotations/a/needsConfirmation'
{"changeAnnotations":{"a":{"label":"l","description":7}}} => field '/edit/changeAnnotations/a/description'
{"changeAnnotations":{"a":{"description":7,"label":null}}} => field '/edit/changeAnnotations/a/label'
{"documentChanges":{},"changes":7} => field '/edit/documentChanges'
{"documentChanges":[7]} => field '/edit/documentChanges/0'
{"documentChanges":[{"kind":"move"}]} => field '/edit/documentChanges/0/kind'
{"documentChanges":[{"kind":7}]} => field '/edit/documentChanges/0/kind'
{"documentChanges":[{"kind":"create","options":7}]} => field '/edit/documentChanges/0/uri'
{"documentChanges":[{"kind":"create","uri":"file:///w/a","options":7,"annotationId":"k"}]} => field '/edit/documentChanges/0/options'
{"documentChanges":[{"kind":"create","uri":"file:///w/a","options":{"ignoreIfExists":1,"overwrite":0}}]} => field '/edit/documentChanges/0/options/overwrite'
{"documentChanges":[{"kind":"create","uri":"file:///w/a","options":{"ignoreIfExists":1},"annotationId":"k"}]} => field '/edit/documentChanges/0/options/ignoreIfExists'
{"documentChanges":[{"kind":"create","uri":"file:///w/a","annotationId":"k"},{"kind":"x"}]} => annotation 'k'
{"documentChanges":[{"kind":"create","uri":"file:///w/a","annotationId":7}]} => field '/edit/documentChanges/0/annotationId'
{"documentChanges":[{"kind":"rename","oldUri":"file:///v/a","newUri":"w/b"}]} => uri '/edit/documentChanges/0/oldUri' OutsideRoot
{"documentChanges":[{"kind":"rename","newUri":"w/b"}]} => field '/edit/documentChanges/0/oldUri'
{"documentChanges":[{"kind":"rename","oldUri":"file:///w/a","newUri":"file:///w/%FF","options":7}]} => uri '/edit/documentChanges/0/newUri' Escape { segment: 0 }
{"documentChanges":[{"kind":"delete","uri":"file:///w/a","options":{"recursive":"x","overwrite":7}}]} => field '/edit/documentChanges/0/options/recursive'
{"documentChanges":[{"kind":"create","uri":"file:///w/a"},{"kind":"delete","uri":"http://h/a"}]} => uri '/edit/documentChanges/1/uri' NotFile
{"documentChanges":[{"uri":"file:///w/a","edits":7}]} => field '/edit/documentChanges/0/textDocument'
{"documentChanges":[{"textDocument":{"version":7.5},"edits":7}]} => field '/edit/documentChanges/0/textDocument/uri'
{"documentChanges":[{"textDocument":{"uri":"file:///w/a","version":7.5},"edits":7}]} => field '/edit/documentChanges/0/textDocument/version'
{"documentChanges":[{"textDocument":{"uri":"file:///w/a","version":2147483648},"edits":[]}]} => field '/edit/documentChanges/0/textDocument/version'
{"documentChanges":[{"textDocument":{"uri":"file:///w/a","version":-2147483649},"edits":[]}]} => field '/edit/documentChanges/0/textDocument/version'
{"documentChanges":[{"textDocument":{"uri":"file:///w/a"}}]} => field '/edit/documentChanges/0/edits'
{"documentChanges":[{"textDocument":{"uri":"file:///w/a"},"edits":[7]}]} => field '/edit/documentChanges/0/edits/0'
{"documentChanges":[{"textDocument":{"uri":"file:///w/a"},"edits":[{"newText":7}]}]} => field '/edit/documentChanges/0/edits/0/range'
{"documentChanges":[{"textDocument":{"uri":"file:///w/a"},"edits":[{"range":7}]}]} => field '/edit/documentChanges/0/edits/0/range'
{"documentChanges":[{"textDocument":{"uri":"file:///w/a"},"edits":[{"range":{"end":7}}]}]} => field '/edit/documentChanges/0/edits/0/range/start'
{"documentChanges":[{"textDocument":{"uri":"file:///w/a"},"edits":[{"range":{"start":{"line":18446744073709551616,"character":-1}}}]}]} => field '/edit/documentChanges/0/edits/0/range/start/line'
{"documentChanges":[{"textDocument":{"uri":"file:///w/a"},"edits":[{"range":{"start":{"line":1,"character":-0}}}]}]} => field '/edit/documentChanges/0/edits/0/range/start/character'
{"documentChanges":[{"textDocument":{"uri":"file:///w/a"},"edits":[{"range":{"start":{"line":1,"character":0},"end":{"character":0}}}]}]} => field '/edit/documentChanges/0/edits/0/range/end/line'
{"documentChanges":[{"textDocument":{"uri":"file:///w/a"},"edits":[{"range":{"start":{"line":1,"character":0},"end":{"line":1,"character":0}},"annotationId":"k"}]}]} => field '/edit/documentChanges/0/edits/0/newText'
{"documentChanges":[{"textDocument":{"uri":"file:///w/a"},"edits":[{"range":{"start":{"line":1,"character":0},"end":{"line":1,"character":0}},"newText":"","annotationId":"k/~"}]}]} => annotation 'k/~'
{"changes":[]} => field '/edit/changes'
{"changes":{"file:///w/b":[],"file:///w/a":8}} => field '/edit/changes/file:~1~1~1w~1a'
{"changes":{"file:///w/%FF":[]}} => uri '/edit/changes/file:~1~1~1w~1%FF' Escape { segment: 0 }
{"changes":{"file:///v/~":7}} => uri '/edit/changes/file:~1~1~1v~1~0' OutsideRoot
{"changes":{"file:///w/a":[{"newText":""}]}} => field '/edit/changes/file:~1~1~1w~1a/0/range'"#;

#[test]
fn the_first_check_that_fails_in_an_edit_is_told(rt: HostRuntime) -> Result<(), Fail> {
    assert!(rt; are_right_edits(rt.alloc(), REFUSED_EDITS)?);
    Ok(())
}

/// So many of the same text.
fn repeated(alloc: Global, text: &str, count: usize) -> Result<String, AllocError> {
    let mut all = String::new(alloc);
    for _ in 0..count {
        all.push_str(text)?;
    }
    Ok(all)
}

/// What is read of an edit with a label of so many bytes begins with this.
fn reads_with_label(alloc: Global, bytes: usize, want: &str) -> Result<bool, Fail> {
    let label = repeated(alloc, "l", bytes)?;
    let line = format!(in alloc; r#"{{"do":"edit","label":"{label}","edit":{{}}}}"#)?;
    Ok(read(alloc, line.as_bytes())?.as_str().starts_with(want))
}

#[test]
fn a_label_has_at_most_1024_bytes(rt: HostRuntime) -> Result<(), Fail> {
    assert!(rt; reads_with_label(rt.alloc(), 1024, "0 edit 'lll")?);
    assert!(rt; reads_with_label(rt.alloc(), 1025, "field '/label'")?);
    Ok(())
}

/// Whether lists in lists, so deep, are JSON in a line.
fn is_json_so_deep(alloc: Global, depth: usize) -> Result<bool, Fail> {
    let open = repeated(alloc, "[", depth)?;
    let close = repeated(alloc, "]", depth)?;
    let line = format!(in alloc; r#"{{"do":"leave","more":{open}{close}}}"#)?;
    Ok(read(alloc, line.as_bytes())?.as_str() == "0 leave")
}

fn is_no_json(alloc: Global, line: &[u8]) -> Result<bool, Fail> {
    Ok(read(alloc, line)?.as_str() == "not JSON")
}

#[test]
fn what_is_too_deep_or_no_text_is_no_json(rt: HostRuntime) -> Result<(), Fail> {
    assert!(rt; is_json_so_deep(rt.alloc(), 100)?);
    assert!(rt; !is_json_so_deep(rt.alloc(), 200)?);
    assert!(rt; is_no_json(rt.alloc(), b"")?);
    assert!(rt; is_no_json(rt.alloc(), b"{\"do\":\"\xFF\"}")?);
    Ok(())
}
