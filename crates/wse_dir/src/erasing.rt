// Taking a path away.
use crate::kinds::tree_has_file;
use crate::places::place_of;
use crate::touched::note_parent;
use std::io::ErrorKind;
use std::rt::Files;
use std::{fs, io};
use wse_path::RelPath;

/// Removes a folder, if it is empty. Answers whether it is gone.
fn remove_empty<R: Files>(rt: &R, folder: &str) -> io::Result<bool> {
    match fs::remove_dir(rt, folder) {
        Ok(()) => Ok(true),
        Err(e) => {
            if e.kind() == ErrorKind::DirectoryNotEmpty {
                Ok(false)
            } else if e.kind() == ErrorKind::NotFound {
                Ok(true)
            } else {
                Err(e)
            }
        }
    }
}

/// Removes the file, if there is one, and notes its folder first. Answers whether there was one.
fn remove_file<R: Files + AllocGlobal>(
    rt: &R,
    place: &str,
    touched: &mut Vec<String>,
) -> io::Result<bool> {
    if !tree_has_file(rt, place)? {
        return Ok(false);
    }
    note_parent(rt.alloc(), touched, place)?;
    fs::remove_file(rt, place)?;
    Ok(true)
}

/// Removes the folder of the first segments of a path, if it is empty. Answers whether it is gone.
fn remove_at<R: Files + AllocGlobal>(
    rt: &R,
    tree: &str,
    path: &RelPath,
    depth: usize,
    touched: &mut Vec<String>,
) -> io::Result<bool> {
    let folder = place_of(rt, tree, path, depth)?;
    note_parent(rt.alloc(), touched, folder.as_str())?;
    remove_empty(rt, folder.as_str())
}

/// Removes the folders above a file that are empty, from the lowest upward.
fn remove_above<R: Files + AllocGlobal>(
    rt: &R,
    tree: &str,
    path: &RelPath,
    touched: &mut Vec<String>,
) -> io::Result<()> {
    for above in (1..path.depth()).rev() {
        if !remove_at(rt, tree, path, above, touched)? {
            break;
        }
    }
    Ok(())
}

/// Removes the file, if it is there, and the folders above it that are empty then. TREE stays.
pub fn erase<R: Files + AllocGlobal>(
    rt: &R,
    tree: &str,
    path: &RelPath,
    touched: &mut Vec<String>,
) -> io::Result<()> {
    let place = place_of(rt, tree, path, path.depth())?;
    if remove_file(rt, place.as_str(), touched)? {
        remove_above(rt, tree, path, touched)?;
    }
    Ok(())
}
