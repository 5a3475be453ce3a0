// Files that are made, and then renamed and edited, each command by a record in the journal.
use std::alloc::Global;
use std::io;
use std::io::ErrorKind;
use std::rt::Files;
use wse_dir::{DirDisk, Hold};
use wse_disk::{Area, Disk, Failed, Place};
use wse_path::RelPath;

/// The bytes of a record.
const RECORD: [u8; 100] = [7; 100];

/// A fault of the disk as an error.
fn done(answer: Result<(), Failed>) -> io::Result<()> {
    match answer {
        Ok(()) => Ok(()),
        Err(Failed) => Err(io::Error::from(ErrorKind::Other)),
    }
}

/// The path of a file in a folder.
fn path_of(alloc: Global, folder: &str, i: u32) -> io::Result<RelPath> {
    let name = format!(in alloc; "{folder}/f{i}")?;
    match RelPath::from_text(alloc, name.as_str()) {
        Ok(path) => Ok(path),
        Err(_) => Err(io::Error::from(ErrorKind::Other)),
    }
}

/// Writes a byte of the journal, and makes it last.
fn write_byte<R: Files + AllocGlobal + Clone + Drop>(
    disk: &mut DirDisk<R>,
    at: u64,
    byte: u8,
) -> io::Result<()>
where
    R::File: Hold,
{
    done(disk.area_write(Area::LogA, at, &[byte]))?;
    done(disk.sync())
}

/// Writes a record into the journal, makes it last, and opens its gate.
fn seal<R: Files + AllocGlobal + Clone + Drop>(disk: &mut DirDisk<R>, at: u64) -> io::Result<()>
where
    R::File: Hold,
{
    done(disk.area_write(Area::LogA, at, &RECORD))?;
    done(disk.sync())?;
    write_byte(disk, at, 0xA5)
}

/// Stores the files of a folder.
fn store_all<R: Files + AllocGlobal + Clone + Drop>(
    alloc: Global,
    disk: &mut DirDisk<R>,
    folder: &str,
    bytes: &[u8],
    files: u32,
) -> io::Result<()>
where
    R::File: Hold,
{
    for i in 0..files {
        let path = path_of(alloc, folder, i)?;
        done(disk.store(&path, bytes))?;
    }
    Ok(())
}

/// Erases the files of a folder.
fn erase_all<R: Files + AllocGlobal + Clone + Drop>(
    alloc: Global,
    disk: &mut DirDisk<R>,
    folder: &str,
    files: u32,
) -> io::Result<()>
where
    R::File: Hold,
{
    for i in 0..files {
        let path = path_of(alloc, folder, i)?;
        done(disk.erase(&path))?;
    }
    Ok(())
}

/// Makes the files, as one command.
fn make<R: Files + AllocGlobal + Clone + Drop>(
    alloc: Global,
    disk: &mut DirDisk<R>,
    files: u32,
) -> io::Result<()>
where
    R::File: Hold,
{
    seal(disk, 0)?;
    store_all(alloc, disk, "old", b"the text of a file\n", files)?;
    done(disk.sync())?;
    write_byte(disk, 99, 0x5A)
}

/// Renames the files and edits each, as one command.
fn rename<R: Files + AllocGlobal + Clone + Drop>(
    alloc: Global,
    disk: &mut DirDisk<R>,
    files: u32,
) -> io::Result<()>
where
    R::File: Hold,
{
    seal(disk, 100)?;
    erase_all(alloc, disk, "old", files)?;
    store_all(alloc, disk, "new", b"the edited text of a file\n", files)?;
    done(disk.sync())?;
    write_byte(disk, 199, 0x5A)
}

/// Makes so many files below `tree`, with a journal in `store`, and then renames them all and edits each. Tells how many flushes
/// each of the two commands took.
pub fn work<R: Files + AllocGlobal + Clone + Drop>(
    alloc: Global,
    disk: &mut DirDisk<R>,
    files: u32,
) -> io::Result<(u64, u64)>
where
    R::File: Hold,
{
    done(disk.place("tree", "store"))?;
    make(alloc, disk, files)?;
    let made = disk.flushes();
    rename(alloc, disk, files)?;
    Ok((made, disk.flushes().saturating_sub(made)))
}
