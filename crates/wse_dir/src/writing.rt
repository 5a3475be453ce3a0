// Writing into one file. What is there stays until the new bytes are written over it.
ghost use Rattle.std.specs.Prelude.{OnOk};
ghost use Rattle.wse_path.specs.Causes.{Rose};

use std::fs::{OpenFile, OpenOptions};
use std::io;
use std::io::{Seek, SeekFrom, Write};
use std::rt::Files;

/// Makes what was written to the file last, its length too, and counts that.
pub fn flush<F: OpenFile>(file: &F, flushes: &mut u64) -> io::Result<()>
    ensures { OnOk result (Rose flushes.old flushes.new) }
{
    file.sync_all()?;
    *flushes = flushes.saturating_add(1);
    Ok(())
}

/// Opens the file for writing. It is made where it isn't there, and never cut.
fn open<R: Files>(rt: &R, place: &str) -> io::Result<R::File> {
    OpenOptions::new().write(true).create(true).open(rt, place)
}

/// Makes the bytes the whole content, and makes it last.
pub fn write_whole<R: Files>(rt: &R, place: &str, bytes: &[u8], flushes: &mut u64) -> io::Result<()>
    ensures { OnOk result (Rose flushes.old flushes.new) }
{
    let mut file = open(rt, place)?;
    file.write_all(bytes)?;
    file.set_len(bytes.len() as u64)?;
    flush(&file, flushes)
}

/// Writes the bytes from the place `at` on, and makes them last.
pub fn write_at<R: Files>(
    rt: &R,
    place: &str,
    at: u64,
    bytes: &[u8],
    flushes: &mut u64,
) -> io::Result<()>
    ensures { OnOk result (Rose flushes.old flushes.new) }
{
    let mut file = open(rt, place)?;
    file.seek(SeekFrom::Start(at))?;
    file.write_all(bytes)?;
    flush(&file, flushes)
}
