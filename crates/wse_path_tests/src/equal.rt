use crate::make::{bytes, path, paths, tree};
use std::alloc::Global;
use std::test::Fail;
use wse_path::Files;

fn are_equal_bytes(alloc: Global, one: &str, other: &str) -> Result<bool, Fail> {
    Ok(bytes(alloc, one)? == bytes(alloc, other)?)
}

fn are_equal_files(alloc: Global, one: &str, other: &str) -> Result<bool, Fail> {
    Ok(Files::new(paths(alloc, one)?) == Files::new(paths(alloc, other)?))
}

fn are_equal_texts(alloc: Global, one: &str, other: &str) -> Result<bool, Fail> {
    Ok(path(alloc, one)?.text(alloc)? == path(alloc, other)?.text(alloc)?)
}

#[test]
fn equal_lists_and_texts_hold_the_same(rt: HostRuntime) -> Result<(), Fail> {
    let alloc = rt.alloc();
    assert!(rt; are_equal_bytes(alloc, "ab", "ab")? && !are_equal_bytes(alloc, "ab", "a")?);
    assert!(rt; are_equal_files(alloc, "a b", "a b")? && !are_equal_files(alloc, "a b", "b a")?);
    assert!(rt; are_equal_texts(alloc, "a/b", "a/b")? && !are_equal_texts(alloc, "a/b", "a/c")?);
    Ok(())
}

// The second tree has room for more files.
fn are_equal_trees(alloc: Global, one: &str, other: &str) -> Result<bool, Fail> {
    let mut roomy = tree(alloc, other)?;
    roomy.reserve(9)?;
    Ok(tree(alloc, one)? == roomy)
}

fn has_bytes_at(alloc: Global, texts: &str, index: usize, content: &str) -> Result<bool, Fail> {
    Ok(tree(alloc, texts)?.bytes_at(index) == Some(content.as_bytes()))
}

#[test]
fn equal_trees_have_equal_files(rt: HostRuntime) -> Result<(), Fail> {
    let alloc = rt.alloc();
    assert!(rt; are_equal_trees(alloc, "a d/x", "d/x a")?);
    assert!(rt; !are_equal_trees(alloc, "a d/x", "a")?);
    assert!(rt; has_bytes_at(alloc, "d/x a", 1, "d/x")?);
    assert!(rt; !has_bytes_at(alloc, "d/x a", 2, "d/x")?);
    Ok(())
}

// How many bytes the texts of the paths have.
fn text_bytes(files: &Files) -> usize {
    let mut sum: usize = 0;
    for file in files {
        sum = sum.saturating_add(file.text_len());
    }
    sum
}

fn have_bytes(alloc: Global, texts: &str, wanted: usize) -> Result<bool, Fail> {
    let files = Files::new(paths(alloc, texts)?);
    Ok(text_bytes(&files) == wanted && files.iter().all(|file| file.depth() < 3))
}

#[test]
fn a_list_is_walked(rt: HostRuntime) -> Result<(), Fail> {
    assert!(rt; have_bytes(rt.alloc(), "a d/x b/c", 7)?);
    Ok(())
}
