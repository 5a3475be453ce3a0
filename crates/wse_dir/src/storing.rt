// Making bytes the content of a path.
ghost use Rattle.std.specs.Prelude.{OnOk};
ghost use Rattle.wse_path.specs.Causes.{Rose};

use crate::clearing::clear;
use crate::kinds::{Room, refused, room_at};
use crate::making::make_above;
use crate::places::place_of;
use crate::touched::note_parent;
use crate::writing::write_whole;
use std::io;
use std::rt::Files;
use wse_path::RelPath;

/// Makes room for a file that may be new.
fn make_room<R: Files + AllocGlobal + Clone + Drop>(
    rt: &R,
    place: &str,
    touched: &mut Vec<String>,
) -> io::Result<()> {
    match room_at(rt, place)? {
        Room::New => note_parent(rt.alloc(), touched, place),
        Room::Written => Ok(()),
        Room::InTheWay => clear(rt, place, touched),
        Room::Refused => Err(refused()),
    }
}

/// Writes the bytes to the file, which is made with the folders above it. That no link is on the way, and that the place isn't
/// too long, is seen before anything is written.
pub fn store<R: Files + AllocGlobal + Clone + Drop>(
    rt: &R,
    tree: &str,
    path: &RelPath,
    bytes: &[u8],
    touched: &mut Vec<String>,
    flushes: &mut u64,
) -> io::Result<()>
    ensures { OnOk result (Rose flushes.old flushes.new) }
{
    let place = place_of(rt, tree, path, path.depth())?;
    make_above(rt, tree, path, touched)?;
    make_room(rt, place.as_str(), touched)?;
    write_whole(rt, place.as_str(), bytes, flushes)
}
