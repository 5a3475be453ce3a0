// Stores that are opened.
use crate::store::{JOURNAL, bytes};
use std::alloc::Global;
use std::test::Fail;
use wse_apply::are_within_standard;
use wse_disk::{Area, Disk, MemDisk};
use wse_path::{Bytes, Limits, RelPath, Tree, Which};
use wse_quiet_disk::QuietDisk;
use wse_recover::{OpenFault, Opened, open_store};

/// The path that the text says.
fn path(alloc: Global, text: &str) -> Result<RelPath, Fail> {
    let mut segments = Vec::new(alloc);
    for segment in text.split('/') {
        segments.push(String::from_str(alloc, segment)?)?;
    }
    Ok(RelPath::new(segments)?)
}

// Puts the file that the word says, as `a/b=content`.
fn put(alloc: Global, tree: &mut Tree, word: &str) -> Result<(), Fail> {
    let Some((name, content)) = word.split_once('=') else {
        return Ok(());
    };
    let path = path(alloc, name)?;
    if tree.fits(&path) {
        tree.put(path, Bytes::new(content.as_bytes().to_vec(alloc)?))?;
    }
    Ok(())
}

fn tree(alloc: Global, words: &str) -> Result<Tree, Fail> {
    let mut tree = Tree::new(alloc);
    for word in words.split(' ') {
        put(alloc, &mut tree, word)?;
    }
    Ok(tree)
}

// A disk with these files, whose calls with these numbers fail, and in its first log the journal of a store in which one edit
// made the empty file `a`, with this mark behind it. The journal is the disk's first call.
fn store(alloc: Global, mark: u8, words: &str, fails: Vec<u64>) -> Result<QuietDisk, Fail> {
    let mut journal = bytes(alloc, JOURNAL)?;
    if journal.len() > 90 {
        journal[90] = mark;
    }
    let mut disk = QuietDisk::new(MemDisk::new(alloc, tree(alloc, words)?, fails));
    let _ = disk.area_write(Area::LogA, 0, &journal);
    Ok(disk)
}

const SETTLED: u8 = 0x5A;

// How opening ends: with this version of `a` and this many bytes of it, where there is such a file; or so.
#[derive(Drop, PartialEq, Eq)]
enum Ended {
    Opened(u32, Option<usize>),
    Differs(&'static str),
    TooBig(Which, u64),
    NotAStore(u64),
    Disk,
    Memory,
}

fn opened_as(alloc: Global, opened: &Opened<QuietDisk>) -> Result<Ended, Fail> {
    let path = path(alloc, "a")?;
    let bytes = match opened.tree.get(&path) {
        Some(bytes) => Some(bytes.len()),
        None => None,
    };
    Ok(Ended::Opened(opened.versions.get(&path), bytes))
}

// The first of these names that the path is.
fn name_of(alloc: Global, found: &RelPath) -> Result<&'static str, Fail> {
    for name in &["a", "a/x", "b"] {
        if path(alloc, name)?.cmp(found).is_eq() {
            return Ok(name);
        }
    }
    Ok("another")
}

fn open(
    alloc: Global,
    disk: QuietDisk,
    adopt: bool,
    limits: &Limits,
) -> Result<(QuietDisk, Ended), Fail> {
    if !are_within_standard(limits) {
        return Err(Fail::new("limits"));
    }
    Ok(match open_store(alloc, disk, adopt, limits) {
        Ok(opened) => {
            let ended = opened_as(alloc, &opened);
            (opened.into_disk(), ended?)
        }
        Err(OpenFault::Disk(disk)) => (disk, Ended::Disk),
        Err(OpenFault::NotAStore { disk, at }) => (disk, Ended::NotAStore(at)),
        Err(OpenFault::TooBig { disk, which, found }) => (disk, Ended::TooBig(which, found)),
        Err(OpenFault::Differs { disk, path }) => (disk, Ended::Differs(name_of(alloc, &path)?)),
        Err(OpenFault::Memory(disk)) => (disk, Ended::Memory),
    })
}

// The mark behind the record, the files, whether what differs is adopted, and how opening ends.
type Row = (u8, &'static str, bool, Ended);

const TABLE: [Row; 11] = [
    (SETTLED, "a=", false, Ended::Opened(1, Some(0))),
    (SETTLED, "a= b=1", false, Ended::Opened(1, Some(0))),
    (SETTLED, "a=q", false, Ended::Differs("a")),
    (SETTLED, "", false, Ended::Differs("a")),
    (SETTLED, "a=q", true, Ended::Opened(2, Some(1))),
    (SETTLED, "", true, Ended::Opened(2, None)),
    (0, "", false, Ended::Opened(1, Some(0))),
    (0, "a=", false, Ended::Opened(1, Some(0))),
    (0x13, "a=qq", false, Ended::Opened(1, Some(0))),
    (0, "a/x=q", false, Ended::Differs("a/x")),
    (0, "a/x=q", true, Ended::Differs("a/x")),
];

fn is_so(alloc: Global, row: &Row) -> Result<bool, Fail> {
    let disk = store(alloc, row.0, row.1, Vec::new(alloc))?;
    Ok(open(alloc, disk, row.2, &Limits::standard())?.1 == row.3)
}

fn each_is_so(alloc: Global) -> Result<bool, Fail> {
    for row in &TABLE {
        if !is_so(alloc, row)? {
            return Ok(false);
        }
    }
    Ok(true)
}

#[test]
fn a_store_is_opened_or_refused(rt: HostRuntime) -> Result<(), Fail> {
    assert!(rt; each_is_so(rt.alloc())?);
    Ok(())
}

// Whether the store over `a=q` and `b=123` is opened so within the limits, adopting what differs.
fn within(alloc: Global, limits: &Limits, ended: &Ended) -> Result<bool, Fail> {
    let disk = store(alloc, SETTLED, "a=q b=123", Vec::new(alloc))?;
    Ok(open(alloc, disk, true, limits)?.1 == *ended)
}

#[test]
fn a_limit_is_passed_or_not(rt: HostRuntime) -> Result<(), Fail> {
    let alloc = rt.alloc();
    let mut limits = Limits::standard();
    limits.known = 33;
    limits.serial = 2;
    limits.files = 2;
    limits.file_bytes = 3;
    limits.tree_bytes = 4;
    assert!(rt; within(alloc, &limits, &Ended::Opened(2, Some(1)))?);
    limits.serial = 1;
    assert!(rt; within(alloc, &limits, &Ended::TooBig(Which::Serial, 2))?);
    limits.known = 32;
    assert!(rt; within(alloc, &limits, &Ended::TooBig(Which::Known, 33))?);
    limits.tree_bytes = 3;
    assert!(rt; within(alloc, &limits, &Ended::TooBig(Which::TreeBytes, 4))?);
    limits.file_bytes = 2;
    assert!(rt; within(alloc, &limits, &Ended::TooBig(Which::FileBytes, 3))?);
    limits.files = 1;
    assert!(rt; within(alloc, &limits, &Ended::TooBig(Which::Files, 2))?);
    Ok(())
}

// Opens with the call that has this number failing, and then the same disk again. How the second opening ends, or None where
// the first didn't fail.
fn opens_again(alloc: Global, mark: u8, number: u64) -> Result<Option<Ended>, Fail> {
    let disk = store(alloc, mark, "a=q", [number].to_vec(alloc)?)?;
    let limits = Limits::standard();
    let first = open(alloc, disk, true, &limits)?;
    if first.1 != Ended::Disk {
        return Ok(None);
    }
    Ok(Some(open(alloc, first.0, true, &limits)?.1))
}

// Each call of an opening fails in turn, until none does. Whether each second opening ends so.
fn each_call_fails(alloc: Global, mark: u8, ended: &Ended) -> Result<bool, Fail> {
    for number in 2..60 {
        match opens_again(alloc, mark, number)? {
            Some(again) if again == *ended => {}
            Some(_) => return Ok(false),
            None => return Ok(number > 20),
        }
    }
    Ok(false)
}

#[test]
fn a_disk_that_failed_while_it_was_opened_is_opened_again(rt: HostRuntime) -> Result<(), Fail> {
    let alloc = rt.alloc();
    assert!(rt; each_call_fails(alloc, SETTLED, &Ended::Opened(2, Some(1)))?);
    assert!(rt; each_call_fails(alloc, 0, &Ended::Opened(1, Some(0)))?);
    Ok(())
}

// Whether what a crash at this moment left opens with this version.
fn image_opens(
    alloc: Global,
    disk: &QuietDisk,
    at: (u64, u64),
    version: u32,
) -> Result<bool, Fail> {
    if at.0 > disk.disk.moment() {
        return Ok(false);
    }
    let image = QuietDisk::new(disk.disk.image_at(at.0, at.1)?);
    match open(alloc, image, true, &Limits::standard())?.1 {
        Ended::Opened(found, _) => Ok(found == version),
        _ => Ok(false),
    }
}

fn images_open(alloc: Global, disk: &QuietDisk, moment: u64, version: u32) -> Result<bool, Fail> {
    for choice in 0..8 {
        if !image_opens(alloc, disk, (moment, choice), version)? {
            return Ok(false);
        }
    }
    Ok(true)
}

// Opens, and then what each crash from the end of the first sync on left. The moment before it is that of the journal's write.
fn each_moment_opens(alloc: Global, mark: u8, version: u32) -> Result<bool, Fail> {
    let disk = store(alloc, mark, "a=q", Vec::new(alloc))?;
    let disk = open(alloc, disk, true, &Limits::standard())?.0;
    for moment in 2..disk.disk.moment() {
        if !images_open(alloc, &disk, moment, version)? {
            return Ok(false);
        }
    }
    Ok(true)
}

#[test]
fn a_crash_while_a_store_is_opened_leaves_one_that_opens_alike(
    rt: HostRuntime,
) -> Result<(), Fail> {
    let alloc = rt.alloc();
    assert!(rt; each_moment_opens(alloc, SETTLED, 2)?);
    assert!(rt; each_moment_opens(alloc, 0, 1)?);
    Ok(())
}
