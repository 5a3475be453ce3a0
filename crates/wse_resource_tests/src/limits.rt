// Moved paths that pass a limit.
use crate::given::{answer, path, tree_of};
use std::alloc::Global;
use std::test::Fail;
use wse_path::{Memory, ResourceOp};

fn repeated(alloc: Global, text: &str, times: u8) -> Result<String, Memory> {
    let mut all = String::new(alloc);
    for _ in 0..times {
        all.push_str(text)?;
    }
    Ok(all)
}

/// A space, and a file under `d`, below that many folders with the same name.
fn push_deep(text: &mut String, folder: &str, times: u8, file: &str) -> Result<(), Memory> {
    text.push_str(" d/")?;
    for _ in 0..times {
        text.push_str(folder)?;
        text.push('/')?;
    }
    Ok(text.push_str(file)?)
}

fn push_three(text: &mut String, folder: &str, first: u8, others: u8) -> Result<(), Memory> {
    push_deep(text, folder, others, "y")?;
    push_deep(text, folder, others, "x")?;
    push_deep(text, folder, first, "A")
}

/// Three files under `d`, of which the first in path order has fewer folders above it.
fn three(alloc: Global, folder: &str, first: u8, others: u8) -> Result<String, Memory> {
    let mut files = String::new(alloc);
    push_three(&mut files, folder, first, others)?;
    Ok(files)
}

/// `d` where it goes.
fn moved(alloc: Global, to: &str) -> Result<ResourceOp, Fail> {
    let from = path(alloc, "d")?;
    let to = path(alloc, to)?;
    Ok(ResourceOp::Rename {
        from,
        to,
        overwrite: false,
        ignore: false,
    })
}

fn limit_at(alloc: Global, folder: &str, times: u8) -> Result<String, Memory> {
    let mut text = String::from_str(alloc, "path limit for")?;
    push_deep(&mut text, folder, times, "x")?;
    Ok(text)
}

/// Of three files the first in path order just fits where it goes, and the second is named.
fn names_the_second(alloc: Global, folder: &str, fits: u8, target: &str) -> Result<bool, Fail> {
    let too_many = fits.saturating_add(1);
    let tree = tree_of(alloc, three(alloc, folder, fits, too_many)?.as_str())?;
    let op = moved(alloc, target)?;
    let wanted = limit_at(alloc, folder, too_many)?;
    Ok(answer(alloc, &tree, &op)?.as_str() == wanted.as_str())
}

fn names_the_long_one(alloc: Global) -> Result<bool, Fail> {
    let name = repeated(alloc, "n", 255)?;
    names_the_second(alloc, name.as_str(), 14, name.as_str())
}

#[test]
fn the_first_path_past_a_limit_is_named(rt: HostRuntime) -> Result<(), Fail> {
    // The second and the third would have 65 segments, or a text of 4,097 bytes.
    assert!(rt; names_the_second(rt.alloc(), "a", 61, "e/f")?);
    assert!(rt; names_the_long_one(rt.alloc())?);
    Ok(())
}
