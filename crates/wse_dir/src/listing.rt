// The files below TREE.
use crate::kinds::{Kind, is_absent, kind_of};
use std::io::ErrorKind;
use std::rt::Files;
use std::{fs, io};
use wse_path::{RelPath, TextRefused};

/// The most levels of folders in which a path's file can lie.
const MAX_FOLDERS: usize = 63;

/// Adds a name, if it is a path.
fn add_path<R: AllocGlobal>(rt: &R, name: &str, paths: &mut Vec<RelPath>) -> io::Result<()> {
    match RelPath::from_text(rt.alloc(), name) {
        Ok(path) => {
            paths.push(path)?;
            Ok(())
        }
        Err(TextRefused::Path(_)) => Ok(()),
        Err(TextRefused::Memory) => Err(io::Error::from(ErrorKind::OutOfMemory)),
    }
}

/// Adds a file, or a folder to be listed. Links and devices are left out.
fn add_entry<R: AllocGlobal>(
    rt: &R,
    name: String,
    kind: Kind,
    folders: &mut Vec<String>,
    paths: &mut Vec<RelPath>,
) -> io::Result<()> {
    match kind {
        Kind::File => add_path(rt, name.as_str(), paths),
        Kind::Folder => add_folder(rt, name, folders),
        Kind::Absent | Kind::Link | Kind::Other => Ok(()),
    }
}

/// One folder's files, and its folders to be listed, by their names below TREE.
fn list_one<R: Files + AllocGlobal + Clone + Drop>(
    rt: &R,
    tree: &str,
    below: &str,
    folders: &mut Vec<String>,
    paths: &mut Vec<RelPath>,
) -> io::Result<()> {
    let folder = format!(in rt.alloc(); "{tree}/{below}")?;
    for entry in fs::read_dir(rt, folder.as_str())? {
        match entry {
            Ok(entry) => {
                let kind = kind_of(entry.file_type()?);
                let file_name = entry.file_name();
                let name = format!(in rt.alloc(); "{below}{file_name}")?;
                add_entry(rt, name, kind, folders, paths)?;
            }
            Err(e) => {
                if e.kind() != ErrorKind::InvalidFilename {
                    return Err(e);
                }
            }
        }
    }
    Ok(())
}

/// Adds a folder, if a path may go through it.
fn add_folder<R: AllocGlobal>(rt: &R, name: String, folders: &mut Vec<String>) -> io::Result<()> {
    match RelPath::from_text(rt.alloc(), name.as_str()) {
        Ok(path) if path.depth() <= MAX_FOLDERS => {
            let mut name = name;
            name.push('/')?;
            folders.push(name)?;
            Ok(())
        }
        Ok(_) | Err(TextRefused::Path(_)) => Ok(()),
        Err(TextRefused::Memory) => Err(io::Error::from(ErrorKind::OutOfMemory)),
    }
}

/// Adds the files below TREE whose names are paths. Links and devices are left out. A TREE that doesn't exist has none.
pub fn names<R: Files + AllocGlobal + Clone + Drop>(
    rt: &R,
    tree: &str,
    paths: &mut Vec<RelPath>,
) -> io::Result<()> {
    if is_absent(rt, tree)? {
        return Ok(());
    }
    let mut folders = Vec::new(rt.alloc());
    folders.push(String::new(rt.alloc()))?;
    for _ in 0..u64::MAX {
        match folders.pop() {
            Some(below) => list_one(rt, tree, below.as_str(), &mut folders, paths)?,
            None => break,
        }
    }
    paths.sort_unstable();
    Ok(())
}
