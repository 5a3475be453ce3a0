// What trees hold, line by line.
use crate::make::{has_paths, holds, path, paths, put, put_in_room, remove, tree};
use std::alloc::Global;
use std::test::Fail;
use wse_path::Tree;

fn number(text: &str) -> u64 {
    text.parse().unwrap_or(u64::MAX)
}

fn fits(alloc: Global, tree: &Tree, text: &str) -> Result<bool, Fail> {
    Ok(tree.fits(&path(alloc, text)?))
}

fn is_folder(alloc: Global, tree: &Tree, text: &str) -> Result<bool, Fail> {
    Ok(tree.is_folder(&path(alloc, text)?))
}

fn is_above(alloc: Global, tree: &Tree, text: &str, above: &str) -> Result<bool, Fail> {
    Ok(tree.file_above(&path(alloc, text)?) == Some(&path(alloc, above)?))
}

fn are_under(alloc: Global, tree: &Tree, text: &str, wanted: &str) -> Result<bool, Fail> {
    let under = tree.under(alloc, &path(alloc, text)?)?;
    Ok(under.as_slice() == paths(alloc, wanted)?.as_slice())
}

fn are_none_under(alloc: Global, tree: &Tree, text: &str) -> Result<bool, Fail> {
    Ok(tree.under(alloc, &path(alloc, text)?)?.is_empty())
}

// Whether the tree tells this of the path: `has PATH TEXT`, `above PATH FILE`, `under PATH FILE ..`, `none-under PATH`, `folder
// PATH`, `no-folder PATH` or `full PATH` for one that doesn't fit.
fn tells(alloc: Global, tree: &Tree, word: &str, name: &str, rest: &str) -> Result<bool, Fail> {
    match word {
        "has" => holds(alloc, tree, name, rest),
        "above" => is_above(alloc, tree, name, rest),
        "under" => are_under(alloc, tree, name, rest),
        "none-under" => are_none_under(alloc, tree, name),
        "folder" => is_folder(alloc, tree, name),
        "no-folder" => Ok(!is_folder(alloc, tree, name)?),
        "full" => Ok(!fits(alloc, tree, name)?),
        _ => Ok(false),
    }
}

// Whether the line is done, or right: `put PATH TEXT`, `put-in-room PATH`, `remove PATH`, `paths PATH ..`, `bytes NUMBER`, or what
// the tree tells of a path.
fn is_right(alloc: Global, tree: &mut Tree, line: &str) -> Result<bool, Fail> {
    let (word, words) = line.split_once(' ').unwrap_or((line, ""));
    let (name, rest) = words.split_once(' ').unwrap_or((words, ""));
    match word {
        "put" => put(alloc, tree, name, rest),
        "put-in-room" => put_in_room(alloc, tree, name),
        "remove" => remove(alloc, tree, name),
        "paths" => has_paths(alloc, &*tree, words),
        "bytes" => Ok(tree.bytes() == number(name)),
        _ => tells(alloc, &*tree, word, name, rest),
    }
}

// Whether each line is right, one after another, over a tree with these files.
fn are_right(alloc: Global, files: &str, lines: &str) -> Result<bool, Fail> {
    let mut made = tree(alloc, files)?;
    for line in lines.lines() {
        if !is_right(alloc, &mut made, line.trim())? {
            return Ok(false);
        }
    }
    Ok(true)
}

const HELD: &str = "paths a d/x d/y
    has d/x d/x
    folder d
    above a/b/c a";

#[test]
fn a_tree_holds_what_is_put(rt: HostRuntime) -> Result<(), Fail> {
    assert!(rt; are_right(rt.alloc(), "d/y d/x a", HELD)?);
    Ok(())
}

#[test]
fn no_path_of_a_tree_is_under_another(rt: HostRuntime) -> Result<(), Fail> {
    assert!(rt; are_right(rt.alloc(), "d/y d/x a", "full a/b\nfull d")?);
    Ok(())
}

const COME_AND_GO: &str = "remove d/x
    put-in-room z
    paths a d/y z";

#[test]
fn files_come_and_go(rt: HostRuntime) -> Result<(), Fail> {
    assert!(rt; are_right(rt.alloc(), "d/y d/x a", COME_AND_GO)?);
    Ok(())
}

const BYTES: &str = "bytes 4
    put d/x 1234567
    bytes 8
    put d/x 1
    bytes 2
    remove a
    bytes 1";

#[test]
fn the_bytes_of_a_tree_are_those_of_its_files(rt: HostRuntime) -> Result<(), Fail> {
    assert!(rt; are_right(rt.alloc(), "d/x a", BYTES)?);
    Ok(())
}

// By their texts a.b comes before a/b, and in path order behind it.
const BEHIND: &str = "paths a/b a.b
    under a a/b
    folder a
    none-under a.b
    no-folder a.b";

#[test]
fn what_is_under_a_path_comes_right_behind_it(rt: HostRuntime) -> Result<(), Fail> {
    assert!(rt; are_right(rt.alloc(), "a.b a/b", BEHIND)?);
    Ok(())
}
