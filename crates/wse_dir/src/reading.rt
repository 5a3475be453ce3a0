// Reading files below TREE.
use crate::kinds::tree_has_file;
use crate::places::place_of;
use std::fs::File;
use std::io::Read;
use std::rt::Files;
use std::{fs, io};
use wse_path::RelPath;

/// How many bytes the file has, or None where there is none.
pub fn size<R: Files + AllocGlobal>(rt: &R, tree: &str, path: &RelPath) -> io::Result<Option<u64>> {
    let place = place_of(rt, tree, path, path.depth())?;
    if !tree_has_file(rt, place.as_str())? {
        return Ok(None);
    }
    Ok(Some(fs::symlink_metadata(rt, place.as_str())?.len()))
}

/// Adds the file's bytes.
fn read_whole<R: Files>(rt: &R, place: &str, into: &mut Vec<u8>) -> io::Result<()> {
    let mut file = File::open(rt, place)?;
    file.read_to_end(into)?;
    Ok(())
}

/// Reads the file behind what `into` holds, and answers whether there is one.
pub fn load<R: Files + AllocGlobal>(
    rt: &R,
    tree: &str,
    path: &RelPath,
    into: &mut Vec<u8>,
) -> io::Result<bool> {
    let place = place_of(rt, tree, path, path.depth())?;
    if !tree_has_file(rt, place.as_str())? {
        return Ok(false);
    }
    read_whole(rt, place.as_str(), into)?;
    Ok(true)
}
