// The files of STORE.
ghost use Rattle.std.specs.Prelude.{◌≡◌, true, ◌+◌, ◌<◌, ◌≤◌, ◌^◌, length, IfOk, OnOk};
ghost use Rattle.wse_path.specs.Causes.{Rose};

use crate::kinds::{refused, store_has_file};
use crate::places::go_down;
use crate::touched::note;
use crate::writing::write_at;
use std::fs::File;
use std::io::{Read, Seek, SeekFrom};
use std::rt::Files;
use std::{fs, io};
use wse_disk::Area;

/// Each place of an area is below this.
const PLACES: u64 = 9_223_372_036_854_775_808;

fn name_of(area: Area) -> &'static str {
    match area {
        Area::Switch => "switch",
        Area::LogA => "log.a",
        Area::LogB => "log.b",
    }
}

fn place_of<R: AllocGlobal>(rt: &R, store: &str, area: Area) -> io::Result<String> {
    let mut place = String::from_str(rt.alloc(), store)?;
    go_down(&mut place, name_of(area))?;
    Ok(place)
}

/// The count, if it is below 2^63.
fn bounded(count: u64) -> io::Result<u64>
    ensures { IfOk result (λ count. count < 2 ^ 63) }
{
    if count < PLACES {
        Ok(count)
    } else {
        Err(refused())
    }
}

/// How many bytes the area has: none where its file doesn't exist.
pub fn area_len<R: Files + AllocGlobal>(rt: &R, store: &str, area: Area) -> io::Result<u64>
    ensures { IfOk result (λ count. count < 2 ^ 63) }
{
    let place = place_of(rt, store, area)?;
    if !store_has_file(rt, place.as_str())? {
        return Ok(0);
    }
    bounded(fs::symlink_metadata(rt, place.as_str())?.len())
}

/// Fills `into` with the file's bytes from the place on.
fn read_at<R: Files>(rt: &R, place: &str, at: u64, into: &mut [u8]) -> io::Result<()>
    ensures { length into.new ≡ length into.old }
{
    let mut file = File::open(rt, place)?;
    file.seek(SeekFrom::Start(at))?;
    file.read_exact(into)
}

/// Fills `into` with the area's bytes from the place on.
pub fn area_read<R: Files + AllocGlobal>(
    rt: &R,
    store: &str,
    area: Area,
    at: u64,
    into: &mut [u8],
) -> io::Result<()>
    ensures { length into.new ≡ length into.old }
{
    if into.is_empty() {
        return Ok(());
    }
    let place = place_of(rt, store, area)?;
    if !store_has_file(rt, place.as_str())? {
        return Err(refused());
    }
    read_at(rt, place.as_str(), at, into)
}

/// Whether bytes may be written there.
fn fits(at: u64, count: usize) -> bool
    ensures { result ≡ true → at + count ≤ 2 ^ 63 }
{
    match at.checked_add(count as u64) {
        Some(end) => end <= PLACES,
        None => false,
    }
}

/// Notes STORE where the file is new.
fn note_new<R: Files + AllocGlobal>(
    rt: &R,
    store: &str,
    place: &str,
    touched: &mut Vec<String>,
) -> io::Result<()> {
    if store_has_file(rt, place)? {
        return Ok(());
    }
    note(rt.alloc(), touched, store)
}

/// Writes the bytes into the area from the place on. STORE is there.
pub fn area_write<R: Files + AllocGlobal>(
    rt: &R,
    store: &str,
    area: Area,
    at: u64,
    bytes: &[u8],
    touched: &mut Vec<String>,
    flushes: &mut u64,
) -> io::Result<()>
    ensures bounded { OnOk result (at + length bytes.now ≤ 2 ^ 63) }
    ensures flushed { OnOk result (Rose flushes.old flushes.new) }
{
    if !fits(at, bytes.len()) {
        return Err(refused());
    }
    let place = place_of(rt, store, area)?;
    note_new(rt, store, place.as_str(), touched)?;
    write_at(rt, place.as_str(), at, bytes, flushes)
}
