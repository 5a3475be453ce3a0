// The folders in which a name came or went.
ghost use Rattle.std.specs.Prelude.{◌≡◌, [], OnOk};

use crate::kinds::is_absent;
use crate::places::parent_of;
use crate::writing::flush;
use std::alloc::Global;
use std::fs::File;
use std::io;
use std::rt::Files;

/// Whether the folder is among them.
fn has(folders: &[String], folder: &str) -> bool {
    folders.iter().any(|f| f.as_str() == folder)
}

/// Notes a folder, once.
pub fn note(alloc: Global, folders: &mut Vec<String>, folder: &str) -> io::Result<()> {
    if has(folders.as_slice(), folder) {
        return Ok(());
    }
    folders.push(String::from_str(alloc, folder)?)?;
    Ok(())
}

/// Notes the folder in which the place lies.
pub fn note_parent(alloc: Global, folders: &mut Vec<String>, place: &str) -> io::Result<()> {
    note(alloc, folders, parent_of(place))
}

/// Makes the names in a folder last.
fn sync_folder<R: Files>(rt: &R, folder: &str, flushes: &mut u64) -> io::Result<()> {
    let file = File::open(rt, folder)?;
    flush(&file, flushes)
}

/// Makes the names in a folder last, if it is still there. That it went is noted in the folder above it.
fn sync_one<R: Files>(rt: &R, folder: &str, flushes: &mut u64) -> io::Result<()> {
    if is_absent(rt, folder)? {
        Ok(())
    } else {
        sync_folder(rt, folder, flushes)
    }
}

/// Makes the names in all of them last. After an error all stay noted.
pub fn sync_all<R: Files>(rt: &R, folders: &mut Vec<String>, flushes: &mut u64) -> io::Result<()>
    ensures { OnOk result (folders.new.items ≡ []) }
{
    for folder in folders.iter() {
        sync_one(rt, folder.as_str(), flushes)?;
    }
    folders.clear();
    Ok(())
}
