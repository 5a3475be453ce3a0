// What edits do, row by row: the failure kind with the encoding and limits; the files; the paths that participant 2 holds;
// what is asked; and what failed, what changes, which versions rise, and what was left out.
use crate::given::{edit_of, limits_of, locks_of, tree_of, versions_of};
use crate::told::told;
use std::alloc::Global;
use std::test::Fail;
use wse_apply::{are_within_standard, limit_hit, perform};
use wse_locks::Locks;
use wse_path::{Edit, Limits, Memory, Tree, Versions};

const KINDS: &str = "abort | | | create a; delete x; create b | 1 not found, a:->, a+1,
transactional | | | create a; delete x; create b | 1 not found,,,
undo | | | create a; delete x; create b | 1 not found,, a+2,
text-only | | | create a; delete x; create b | 1 not found, a:->, a+1,
text-only | a=t b=t | | edit a 1 0=x; edit b 7 0=x | 1 version 1 7,,,
text-only | a=t b=t | | create c; edit a 1 0=x; edit b 7 0=x | 2 version 1 7, a:t>xt c:->, a+1 c+1,
text-only | a=t b=t | | ?create c; edit a 1 0=x; edit b 7 0=x | 2 version 1 7, a:t>xt, a+1, 0
undo | a=t | | edit a - 0=x; create b; delete b | done, a:t>xt, a+1,
undo | a=t | | edit a - 0=x; edit a - 0-1=; delete q | 2 not found,,,";

const SKIPS: &str = "abort | | | create p; ?create q; delete r | 2 not found, p:->, p+1, 1
abort | a=t | | edit a - ?0=x 1=y ?2=z; ?edit b - ?0=x | done, a:t>ty, a+1, 0.0 0.2 1
abort | | | edit a - ?0=x; ?delete b | 0 not found,,, 0.0 1
abort | d/x=t | | edit d - ?0=x | 0 is a folder,,, 0.0
abort | a=t | | edit a 3 ?0=x | 0 version 1 3,,, 0.0
abort | a=t% | | edit a 1 ?0=x | 0 not text 1 0,,, 0.0";

const TEXTS: &str =
    "abort | a.txt=t | | edit a.txt - 0=1; edit a.txt - 0=2 | done, a.txt:t>21t, a.txt+1,
abort utf-16 | a.txt=a😀b$ | | edit a.txt - 3=X | done, a.txt:a😀b$>a😀Xb$, a.txt+1,
abort utf-8 | a.txt=a😀b$ | | edit a.txt - 5=X | done, a.txt:a😀b$>a😀Xb$, a.txt+1,
abort utf-32 | a.txt=a😀b$ | | edit a.txt - 2=X | done, a.txt:a😀b$>a😀Xb$, a.txt+1,
abort utf-16 | a.txt=a😀b$ | | edit a.txt - 2=X | 0 inside 0 1,,,
abort | a=t% | | edit a - 0=x | 0 not text 1 0,,,
abort | a=t% | | edit a 7 0=x | 0 version 1 7,,,
abort | a=abc | | edit a - 1-2=Z 1=1 | 0 overlap 0 1,,,
abort | a=abc | | edit a - 0-1=a 2=q 2-3=; edit a - 0-1=a | done, a:abc>abq, a+1,
abort | a=abc | | edit a - ?0=q 1-3=Z 2=1 | 0 overlap 1 2,,, 0.0
abort | a=abc | | create b; edit b 0 0=q; rename b c; edit c 0 0=r | done, c:->rq, c+1,
abort | a=abc | | edit a 1 0=q; edit a 1 0=r | done, a:abc>rqabc, a+1,
abort | a=abc | | delete a; create a; edit a 1 0=abc | done,,,";

const LOCKS: &str = "abort | a=t | a | edit a - 0-1=t | done,,,
abort | a=t | a | edit a - 0=x | 0 locked a,,,
abort | a=t | a | edit a 7 0=x | 0 version 1 7,,,
abort | a=t | a | rename a a | done,,,
abort | d/x=t d/y=t | d/y e/x e/y z | rename d e | 0 locked d/y e/x e/y,,,
abort | a=t b=t | b | rename a b overwrite | done, a:t>-, a+1,
abort | a=t b=t | a b | rename a b overwrite | 0 locked a,,,
abort | d/x=t | d/x | rename d z/z/z/z/z/z/z/z/z/z/z/z/z/z/z/z/z/z/z/z/z/z/z/z/z/z/z/z/z/z/z/z/z/z/z/z/z/z/z/z/z/z/z/z/z/z/z/z/z/z/z/z/z/z/z/z/z/z/z/z/z/z/z/z | 0 path limit d/x,,,";

const LIMITS: &str =
    "abort file-bytes=2 | | | create a; edit a - 0=abc | 1 limit file bytes 3, a:->, a+1,
abort files=1 | | | create a; create b | 1 limit files 2, a:->, a+1,
abort files=1 | a=t | | rename a b; delete b; create c | done, a:t>- c:->, a+1 c+1,
abort tree-bytes=3 | a=ab b=c | | edit b - 0=d | 0 limit tree bytes 4,,,
abort tree-bytes=3 | a=ab b=c | | delete a; edit b - 0=d; edit b - 0=ee | 2 limit tree bytes 4, a:ab>- b:c>dc, a+1 b+1,
abort tree-bytes=3 file-bytes=3 | a=ab b=c | | edit b - 0=ddd | 0 limit file bytes 4,,,
abort tree-bytes=3 | a=ab b=c | b | edit b - 0=d | 0 locked b,,,";

const RENAME: &str =
    "text-only | src/lib.rs=mod~point;$ src/main.rs=use~point::Point;$ src/point.rs=pub~struct~Point;$ | | edit src/point.rs 1 11-16=Spot; edit src/main.rs 1 4-9=spot 11-16=Spot; edit src/lib.rs 1 4-9=spot; rename src/point.rs src/spot.rs | done, src/lib.rs:mod~point;$>mod~spot;$ src/main.rs:use~point::Point;$>use~spot::Spot;$ src/point.rs:pub~struct~Point;$>- src/spot.rs:->pub~struct~Spot;$, src/lib.rs+1 src/main.rs+1 src/point.rs+1 src/spot.rs+1,";

/// What participant 1 is answered.
fn answer(
    alloc: Global,
    tree: &Tree,
    versions: &Versions,
    locks: &Locks,
    limits: &Limits,
    edit: &Edit,
) -> Result<String, Memory> {
    if !are_within_standard(limits) {
        return Ok(String::from_str(alloc, "limits too large")?);
    }
    match limit_hit(limits, tree) {
        Some(_) => Ok(String::from_str(alloc, "tree too large")?),
        None => told(
            alloc,
            &perform(alloc, tree, versions, locks, limits, 1, edit)?,
        ),
    }
}

fn is_right(alloc: Global, row: &str) -> Result<bool, Fail> {
    let mut parts = row.split('|');
    let words = parts.next().unwrap_or("");
    let tree = tree_of(alloc, parts.next().unwrap_or(""))?;
    let locks = locks_of(alloc, parts.next().unwrap_or(""))?;
    let edit = edit_of(alloc, words, parts.next().unwrap_or("").trim())?;
    let wanted = parts.next().unwrap_or("?").trim();
    let versions = versions_of(alloc, &tree)?;
    let limits = limits_of(words);
    Ok(
        answer(alloc, &tree, &versions, &locks, &limits, &edit)?
            .as_str()
            .trim()
            == wanted,
    )
}

fn are_right(alloc: Global, rows: &str) -> Result<Option<usize>, Fail> {
    for (index, row) in rows.lines().enumerate() {
        if !is_right(alloc, row)? {
            return Ok(Some(index));
        }
    }
    Ok(None)
}

#[test]
fn failure_kinds_keep_what_they_say(rt: HostRuntime) -> Result<(), Fail> {
    assert!(rt; are_right(rt.alloc(), KINDS)?.is_none());
    Ok(())
}

#[test]
fn skipped_operations_and_edits_are_told(rt: HostRuntime) -> Result<(), Fail> {
    assert!(rt; are_right(rt.alloc(), SKIPS)?.is_none());
    Ok(())
}

#[test]
fn texts_are_edited_one_after_another(rt: HostRuntime) -> Result<(), Fail> {
    assert!(rt; are_right(rt.alloc(), TEXTS)?.is_none());
    Ok(())
}

#[test]
fn locks_stop_what_would_change(rt: HostRuntime) -> Result<(), Fail> {
    assert!(rt; are_right(rt.alloc(), LOCKS)?.is_none());
    Ok(())
}

#[test]
fn limits_are_tried_on_the_tree_after_the_operation(rt: HostRuntime) -> Result<(), Fail> {
    assert!(rt; are_right(rt.alloc(), LIMITS)?.is_none());
    Ok(())
}

#[test]
fn a_rename_of_a_language_server_is_performed(rt: HostRuntime) -> Result<(), Fail> {
    assert!(rt; is_right(rt.alloc(), RENAME)?);
    Ok(())
}
