// What stands at a place, and what may be done there.
ghost use Rattle.std.specs.Prelude.{◌≡◌};
ghost use Rattle.wse_dir.specs.Kinds.{lets_through, file_in_tree, file_in_store, room_in_tree};

use std::fs::FileType;
use std::io::ErrorKind;
use std::rt::Files;
use std::{fs, io};

/// What stands at a place of the file system. A link is itself and not what it leads to.
#[derive(Clone, Copy, PartialEq, Eq)]
pub enum Kind {
    Absent,
    File,
    Folder,
    Link,
    /// A device, a pipe or a socket.
    Other,
}

/// What a store finds at its place.
#[derive(Clone, Copy, PartialEq, Eq)]
pub enum Room {
    /// Nothing: the file is new.
    New,
    /// A file, which is written over.
    Written,
    /// A folder, which goes if no file is below it.
    InTheWay,
    /// Something that is never written to.
    Refused,
}

/// Whether a path may go through what stands there.
fn lets_through(kind: Kind) -> bool
    ensures { result ≡ lets_through kind }
{
    match kind {
        Kind::Absent | Kind::File | Kind::Folder | Kind::Other => true,
        Kind::Link => false,
    }
}

/// Whether a file of the tree stands there, or None where what stands there is refused.
fn file_in_tree(kind: Kind) -> Option<bool>
    ensures { result ≡ file_in_tree kind }
{
    match kind {
        Kind::File => Some(true),
        Kind::Absent | Kind::Folder => Some(false),
        Kind::Link | Kind::Other => None,
    }
}

/// Whether a file of the store stands there, or None where what stands there is refused.
fn file_in_store(kind: Kind) -> Option<bool>
    ensures { result ≡ file_in_store kind }
{
    match kind {
        Kind::File => Some(true),
        Kind::Absent => Some(false),
        Kind::Folder | Kind::Link | Kind::Other => None,
    }
}

/// What a store finds there.
fn room_in_tree(kind: Kind) -> Room
    ensures { result ≡ room_in_tree kind }
{
    match kind {
        Kind::Absent => Room::New,
        Kind::File => Room::Written,
        Kind::Folder => Room::InTheWay,
        Kind::Link | Kind::Other => Room::Refused,
    }
}

/// An answer of the system that these folders have no use for.
pub fn refused() -> io::Error {
    io::Error::from(ErrorKind::Other)
}

/// The kind that the system tells.
pub fn kind_of(file_type: FileType) -> Kind {
    if file_type.is_symlink() {
        Kind::Link
    } else if file_type.is_file() {
        Kind::File
    } else if file_type.is_dir() {
        Kind::Folder
    } else {
        Kind::Other
    }
}

/// What stands at the place.
pub fn kind_at<R: Files>(rt: &R, place: &str) -> io::Result<Kind> {
    match fs::symlink_metadata(rt, place) {
        Ok(metadata) => Ok(kind_of(metadata.file_type())),
        Err(e) => {
            if e.kind() == ErrorKind::NotFound || e.kind() == ErrorKind::NotADirectory {
                Ok(Kind::Absent)
            } else {
                Err(e)
            }
        }
    }
}

/// Whether nothing stands at the place.
pub fn is_absent<R: Files>(rt: &R, place: &str) -> io::Result<bool> {
    Ok(kind_at(rt, place)? == Kind::Absent)
}

/// Refuses a link.
pub fn refuse_link<R: Files>(rt: &R, place: &str) -> io::Result<()> {
    if lets_through(kind_at(rt, place)?) {
        Ok(())
    } else {
        Err(refused())
    }
}

/// The answer, or a refusal where there is none.
fn known<T>(answer: Option<T>) -> io::Result<T> {
    match answer {
        Some(answer) => Ok(answer),
        None => Err(refused()),
    }
}

/// Whether a file of the tree stands at the place.
pub fn tree_has_file<R: Files>(rt: &R, place: &str) -> io::Result<bool> {
    known(file_in_tree(kind_at(rt, place)?))
}

/// Whether a file of the store stands at the place.
pub fn store_has_file<R: Files>(rt: &R, place: &str) -> io::Result<bool> {
    known(file_in_store(kind_at(rt, place)?))
}

/// What a store finds at the place.
pub fn room_at<R: Files>(rt: &R, place: &str) -> io::Result<Room> {
    Ok(room_in_tree(kind_at(rt, place)?))
}
