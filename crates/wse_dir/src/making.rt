// Making folders.
use crate::kinds::is_absent;
use crate::places::{go_down, parent_of};
use crate::touched::note_parent;
use std::rt::Files;
use std::{fs, io};
use wse_path::RelPath;

/// Makes a folder. The folder above it is noted first.
fn make_one<R: Files + AllocGlobal>(
    rt: &R,
    folder: &str,
    touched: &mut Vec<String>,
) -> io::Result<()> {
    note_parent(rt.alloc(), touched, folder)?;
    fs::create_dir(rt, folder)
}

/// The places at which nothing is, from this one upward.
fn missing<R: Files + AllocGlobal>(rt: &R, place: &str) -> io::Result<Vec<String>> {
    let mut found = Vec::new(rt.alloc());
    let mut at = place;
    for _ in 0..u64::MAX {
        if !is_absent(rt, at)? {
            break;
        }
        found.push(String::from_str(rt.alloc(), at)?)?;
        at = parent_of(at);
    }
    Ok(found)
}

/// Makes TREE or STORE, with the folders above it.
pub fn make_root<R: Files + AllocGlobal>(
    rt: &R,
    place: &str,
    touched: &mut Vec<String>,
) -> io::Result<()> {
    let found = missing(rt, place)?;
    for folder in found.iter().rev() {
        make_one(rt, folder.as_str(), touched)?;
    }
    Ok(())
}

/// Goes one name further down, and makes a folder there unless something is.
fn make_below<R: Files + AllocGlobal>(
    rt: &R,
    folder: &mut String,
    name: &str,
    touched: &mut Vec<String>,
) -> io::Result<()> {
    go_down(folder, name)?;
    if is_absent(rt, folder.as_str())? {
        make_one(rt, folder.as_str(), touched)
    } else {
        Ok(())
    }
}

/// Makes the folders above a file.
pub fn make_above<R: Files + AllocGlobal>(
    rt: &R,
    tree: &str,
    path: &RelPath,
    touched: &mut Vec<String>,
) -> io::Result<()> {
    make_root(rt, tree, touched)?;
    let mut folder = String::from_str(rt.alloc(), tree)?;
    for name in path.segments().iter().take(path.depth().saturating_sub(1)) {
        make_below(rt, &mut folder, name.as_str(), touched)?;
    }
    Ok(())
}
