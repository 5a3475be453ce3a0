// Edits of two and three operations, performed in both ways: over an overlay, and over whole trees.
use crate::given::{edit_of, limits_of, locks_of, tree_of, versions_of};
use crate::told::told;
use std::alloc::Global;
use std::test::Fail;
use wse_apply::{are_within_standard, limit_hit, perform, performed_slowly};
use wse_locks::Locks;
use wse_path::{Edit, Limits, Memory, Tree, Versions};

const FILES: &str = "a=ab b=a😀b$ d/x=t d/y=%";

/// Each failure kind. Such rows name an encoding and limits too, and the paths that participant 2 holds.
const KINDS: &str = "abort |
transactional utf-8 |
text-only |
undo utf-32 |";

const UNDER_LOCKS: &str = "abort | a c d/x
transactional | b e/x
text-only | d/y a
undo | c b";

const UNDER_LIMITS: &str = "abort files=4 file-bytes=7 |
transactional file-bytes=7 tree-bytes=12 |
text-only files=4 tree-bytes=12 |
undo files=4 file-bytes=7 tree-bytes=12 | b d/x";

const OPERATIONS: &str = "create a
create c
create a/z
create a overwrite
?create c
rename a c
rename a a
rename a b overwrite
rename d e
rename d d/e
rename d z/z/z/z/z/z/z/z/z/z/z/z/z/z/z/z/z/z/z/z/z/z/z/z/z/z/z/z/z/z/z/z/z/z/z/z/z/z/z/z/z/z/z/z/z/z/z/z/z/z/z/z/z/z/z/z/z/z/z/z/z/z/z/z
delete a
delete d
delete d recursive
delete q ignore
edit a 1 0=x
edit a 7 0=x
edit a - 0-1=a
edit a - 0-1=q 0-2=r
edit a - ?0=x ?1=y
edit b 1 3=X
edit b - 2=X 5=Y
edit d/y - 0=x
edit c 0 0=abc
edit e/x - 0-1=abcdefgh
?edit a - 0=x";

const FRONTS: &str = "create c; rename c e/x
rename d e; edit e/x - 0=x
rename a c; create a
edit a - 0=x; edit a 1 0-1=
delete a; create a
delete d recursive; create d
rename a b overwrite; edit b 1 0=q
?delete a; edit a - ?0=x
create c; delete q
edit b - 0=x; rename b d/z";

/// Where an edit begins.
#[derive(Drop)]
struct Given {
    tree: Tree,
    versions: Versions,
    locks: Locks,
    limits: Limits,
}

fn given_of(alloc: Global, words: &str, held: &str) -> Result<Given, Fail> {
    let tree = tree_of(alloc, FILES)?;
    let versions = versions_of(alloc, &tree)?;
    Ok(Given {
        tree,
        versions,
        locks: locks_of(alloc, held)?,
        limits: limits_of(words),
    })
}

/// Whether both ways do the same, of which the first may be asked.
fn do_the_same(alloc: Global, given: &Given, edit: &Edit) -> Result<bool, Memory> {
    let Given {
        tree,
        versions,
        locks,
        limits,
    } = given;
    if !are_within_standard(limits) {
        return Ok(false);
    }
    match limit_hit(limits, tree) {
        Some(_) => Ok(false),
        None => {
            let done = perform(alloc, tree, versions, locks, limits, 1, edit)?;
            let slowly = performed_slowly(alloc, tree, versions, locks, limits, 1, edit)?;
            Ok(told(alloc, &done)?.as_str() == told(alloc, &slowly)?.as_str())
        }
    }
}

fn agree(alloc: Global, given: &Given, words: &str, asked: &str) -> Result<bool, Fail> {
    let edit = edit_of(alloc, words, asked)?;
    Ok(do_the_same(alloc, given, &edit)?)
}

/// Each operation behind these.
fn agree_behind(alloc: Global, given: &Given, words: &str, front: &str) -> Result<bool, Fail> {
    for operation in OPERATIONS.lines() {
        let asked = format!(in alloc; "{front}; {operation}")?;
        if !agree(alloc, given, words, asked.as_str())? {
            return Ok(false);
        }
    }
    Ok(true)
}

fn agree_in(alloc: Global, setting: &str, fronts: &str) -> Result<bool, Fail> {
    let (words, held) = setting.split_once('|').unwrap_or((setting, ""));
    let given = given_of(alloc, words, held)?;
    for front in fronts.lines() {
        if !agree_behind(alloc, &given, words, front)? {
            return Ok(false);
        }
    }
    Ok(true)
}

fn all_agree(alloc: Global, settings: &str, fronts: &str) -> Result<bool, Fail> {
    for setting in settings.lines() {
        if !agree_in(alloc, setting, fronts)? {
            return Ok(false);
        }
    }
    Ok(true)
}

#[test]
fn all_pairs_are_performed_alike_in_both_ways(rt: HostRuntime) -> Result<(), Fail> {
    assert!(rt; all_agree(rt.alloc(), KINDS, OPERATIONS)?);
    Ok(())
}

#[test]
fn all_pairs_under_locks_are_performed_alike(rt: HostRuntime) -> Result<(), Fail> {
    assert!(rt; all_agree(rt.alloc(), UNDER_LOCKS, OPERATIONS)?);
    Ok(())
}

#[test]
fn all_pairs_under_limits_are_performed_alike(rt: HostRuntime) -> Result<(), Fail> {
    assert!(rt; all_agree(rt.alloc(), UNDER_LIMITS, OPERATIONS)?);
    Ok(())
}

#[test]
fn some_triples_are_performed_alike_in_both_ways(rt: HostRuntime) -> Result<(), Fail> {
    assert!(rt; all_agree(rt.alloc(), KINDS, FRONTS)?);
    assert!(rt; all_agree(rt.alloc(), UNDER_LOCKS, FRONTS)?);
    assert!(rt; all_agree(rt.alloc(), UNDER_LIMITS, FRONTS)?);
    Ok(())
}
