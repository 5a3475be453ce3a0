// Disks in memory, made by the words of a text.
ghost use Rattle.std.specs.Prelude.{◌≤◌, length, true, ◌≡◌};

use std::alloc::Global;
use std::test::Fail;
use wse_disk::{Area, Disk, MemDisk, Place};
use wse_path::{Bytes, RelPath, Tree};

/// The path whose segments the text has between its `/`.
pub fn path(alloc: Global, text: &str) -> Result<RelPath, Fail> {
    let mut segments = Vec::new(alloc);
    for segment in text.split('/') {
        segments.push(String::from_str(alloc, segment)?)?;
    }
    Ok(RelPath::new(segments)?)
}

/// A tree of one file.
pub fn tree(alloc: Global, name: &str, content: &str) -> Result<Tree, Fail> {
    let mut tree = Tree::new(alloc);
    let path = path(alloc, name)?;
    let bytes = Bytes::new(content.as_bytes().to_vec(alloc)?);
    if tree.fits(&path) {
        tree.put(path, bytes)?;
    }
    Ok(tree)
}

// Whether the store was done. There must be room for it.
fn store(disk: &mut MemDisk, path: &RelPath, content: &str) -> bool {
    disk.has_room(path) && disk.store(path, content.as_bytes()).is_ok()
}

// Whether the write into log A was done. It must begin at most at its end.
fn patch(disk: &mut MemDisk, at: &str, bytes: &str) -> bool {
    let at: u64 = at.parse().unwrap_or(u64::MAX);
    if at > disk.area(Area::LogA).len() as u64 {
        return false;
    }
    disk.area_write(Area::LogA, at, bytes.as_bytes()).is_ok()
}

// Whether the call on a path was done.
fn act_at(alloc: Global, disk: &mut MemDisk, kind: &str, path: &RelPath, content: &str) -> bool {
    match kind {
        "store" => store(disk, path, content),
        "erase" => disk.erase(path).is_ok(),
        "size" => disk.size(path).is_ok(),
        _ => disk.load(alloc, path, &mut Vec::new(alloc)).is_ok(),
    }
}

// Whether the call was done that the word tells.
fn act(alloc: Global, disk: &mut MemDisk, word: &str) -> Result<bool, Fail> {
    let mut parts = word.split(':');
    let kind = parts.next().unwrap_or("");
    let name = parts.next().unwrap_or("");
    let content = parts.next().unwrap_or("");
    match kind {
        "patch" => Ok(patch(disk, name, content)),
        "sync" => Ok(disk.sync().is_ok()),
        "names" => Ok(disk.names(alloc, &mut Vec::new(alloc)).is_ok()),
        "place" => Ok(disk.place("tree", "store").is_ok()),
        _ => Ok(act_at(alloc, disk, kind, &path(alloc, name)?, content)),
    }
}

/// Makes the calls that the words tell, one after another, and marks each: `.` if it was done, and else `!`. They are
/// `store:PATH:CONTENT`, `erase:PATH`, `patch:AT:BYTES` into log A, `sync`, `names`, `size:PATH`, `load:PATH` and `place`.
pub fn marks(alloc: Global, disk: &mut MemDisk, words: &str) -> Result<String, Fail> {
    let mut marks = String::new(alloc);
    for word in words.split(' ') {
        let mark = if act(alloc, disk, word)? { "." } else { "!" };
        marks.push_str(mark)?;
    }
    Ok(marks)
}

/// A disk with `b` at first, after the calls, of which those with these numbers fail.
pub fn disk_after(alloc: Global, fails: &[u64], words: &str) -> Result<MemDisk, Fail> {
    let mut disk = MemDisk::new(alloc, tree(alloc, "b", "B")?, fails.to_vec(alloc)?);
    marks(alloc, &mut disk, words)?;
    Ok(disk)
}

/// Whether the path has this content; `-` for none.
pub fn has(alloc: Global, disk: &mut MemDisk, name: &str, content: &str) -> Result<bool, Fail> {
    let mut bytes = Vec::new(alloc);
    let found = disk.load(alloc, &path(alloc, name)?, &mut bytes)?;
    if content == "-" {
        return Ok(!found);
    }
    Ok(found && bytes.as_slice() == content.as_bytes())
}
