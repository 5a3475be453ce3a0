// Removing a folder that holds nothing but empty folders.
use crate::kinds::{Kind, kind_of, refused};
use crate::touched::note_parent;
use std::rt::Files;
use std::{fs, io};

/// Adds the folder, if it is one. Anything else is refused.
fn add_one<R: AllocGlobal>(
    rt: &R,
    folder: &str,
    name: &str,
    kind: Kind,
    folders: &mut Vec<String>,
) -> io::Result<()> {
    if kind != Kind::Folder {
        return Err(refused());
    }
    folders.push(format!(in rt.alloc(); "{folder}/{name}")?)?;
    Ok(())
}

/// Adds the folders in a folder. Anything else there is refused.
fn add_folders<R: Files + AllocGlobal + Clone + Drop>(
    rt: &R,
    folder: &str,
    folders: &mut Vec<String>,
) -> io::Result<()> {
    for entry in fs::read_dir(rt, folder)? {
        let entry = entry?;
        let kind = kind_of(entry.file_type()?);
        add_one(rt, folder, entry.file_name(), kind, folders)?;
    }
    Ok(())
}

/// Adds the folders in that with this index. Answers whether there is one.
fn add_at<R: Files + AllocGlobal + Clone + Drop>(
    rt: &R,
    at: usize,
    folders: &mut Vec<String>,
) -> io::Result<bool> {
    let folder = match folders.get(at) {
        Some(folder) => String::from_str(rt.alloc(), folder.as_str())?,
        None => return Ok(false),
    };
    add_folders(rt, folder.as_str(), folders)?;
    Ok(true)
}

/// The folder and all folders below it, each before those in it.
fn all_below<R: Files + AllocGlobal + Clone + Drop>(
    rt: &R,
    place: &str,
) -> io::Result<Vec<String>> {
    let mut folders = Vec::new(rt.alloc());
    folders.push(String::from_str(rt.alloc(), place)?)?;
    for at in 0..usize::MAX {
        if !add_at(rt, at, &mut folders)? {
            break;
        }
    }
    Ok(folders)
}

/// Removes a folder. The folder above it is noted first.
fn remove_one<R: Files + AllocGlobal>(
    rt: &R,
    folder: &str,
    touched: &mut Vec<String>,
) -> io::Result<()> {
    note_parent(rt.alloc(), touched, folder)?;
    fs::remove_dir(rt, folder)
}

/// Removes the folder at the place, if it holds nothing but empty folders.
pub fn clear<R: Files + AllocGlobal + Clone + Drop>(
    rt: &R,
    place: &str,
    touched: &mut Vec<String>,
) -> io::Result<()> {
    let folders = all_below(rt, place)?;
    for folder in folders.iter().rev() {
        remove_one(rt, folder.as_str(), touched)?;
    }
    Ok(())
}
