// What operations are answered, row by row: the files, what is asked, and each changed path with its old and its new text,
// or the refusal.
use crate::given::{answer, op_of, tree_of};
use std::alloc::Global;
use std::test::Fail;
use wse_resource::operated_slowly;

const CREATES: &str = "a | create b | b ->;
a | create a | exists
a | create a ignore |
a | create a overwrite | a a>;
a | create a overwrite ignore | a a>;
d/x | create d | is a folder
d/x | create d ignore | is a folder
d/x | create d overwrite | is a folder
d/x | create d overwrite ignore | is a folder
d/x | create d/x/y overwrite ignore | beneath the file d/x
d/x | create d/x/y/z | beneath the file d/x";

const RENAMES: &str =
    "d/x d/y d/z | rename d e | d/x d/x>-;d/y d/y>-;d/z d/z>-;e/x ->d/x;e/y ->d/y;e/z ->d/z;
a.b a/b | rename a c | a/b a/b>-;c/b ->a/b;
b | rename b a/b | a/b ->b;b b>-;
a | rename b b overwrite ignore | not found
d/x | rename d/x d/x |
d/x | rename d d |
d/x d/y d/z | rename d d/in | into itself
d/in d/x | rename d d/in | into itself
d/x | rename d/x d overwrite ignore | target holds the source
a b | rename a b/c overwrite ignore | beneath the file b
a b | rename a b | exists
a b | rename a b ignore |
a b | rename a b overwrite | a a>-;b b>a;
a b | rename a b overwrite ignore | a a>-;b b>a;
a d/x | rename a d | exists
a d/x | rename a d overwrite | a a>-;d ->a;d/x d/x>-;
d/x d/y e/w e/x | rename d e overwrite | d/x d/x>-;d/y d/y>-;e/w e/w>-;e/x e/x>d/x;e/y ->d/y;
d/x e | rename d e overwrite | d/x d/x>-;e e>-;e/x ->d/x;";

const DELETES: &str = "a b | delete a | a a>-;
a.b a/b | delete a.b recursive ignore | a.b a.b>-;
d/x d/y d/z | delete d ignore | folder needs recursive
d.x d/x d/y d/z | delete d recursive | d/x d/x>-;d/y d/y>-;d/z d/z>-;
a | delete b recursive | not found
a | delete a/b recursive | not found
a | delete b ignore |";

fn is_right(alloc: Global, row: &str) -> Result<bool, Fail> {
    let mut parts = row.split('|');
    let tree = tree_of(alloc, parts.next().unwrap_or(""))?;
    let op = op_of(alloc, parts.next().unwrap_or("").trim())?;
    let wanted = parts.next().unwrap_or("?").trim();
    Ok(answer(alloc, &tree, &op)?.as_str() == wanted)
}

fn are_right(alloc: Global, rows: &str) -> Result<bool, Fail> {
    for row in rows.lines() {
        if !is_right(alloc, row)? {
            return Ok(false);
        }
    }
    Ok(true)
}

#[test]
fn creates_have_their_answers(rt: HostRuntime) -> Result<(), Fail> {
    assert!(rt; are_right(rt.alloc(), CREATES)?);
    Ok(())
}

#[test]
fn renames_have_their_answers(rt: HostRuntime) -> Result<(), Fail> {
    assert!(rt; are_right(rt.alloc(), RENAMES)?);
    Ok(())
}

#[test]
fn deletes_have_their_answers(rt: HostRuntime) -> Result<(), Fail> {
    assert!(rt; are_right(rt.alloc(), DELETES)?);
    Ok(())
}

fn changes_nothing_again(alloc: Global) -> Result<bool, Fail> {
    let tree = tree_of(alloc, "a")?;
    let op = op_of(alloc, "create a overwrite ignore")?;
    let new = operated_slowly(alloc, &tree, &op)?;
    Ok(answer(alloc, &new, &op)?.as_str() == "")
}

#[test]
fn a_second_create_changes_nothing(rt: HostRuntime) -> Result<(), Fail> {
    assert!(rt; changes_nothing_again(rt.alloc())?);
    Ok(())
}
