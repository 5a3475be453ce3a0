// The worked journal, and a disk that has it.
use crate::quiet::Quiet;
use std::alloc::Global;
use std::test::Fail;
use wse_disk::{Area, Disk, MemDisk};
use wse_path::{Bytes, RelPath, Tree};

/// A journal of one record, worked by hand: the state of a store over an empty tree. Its closed gate is the last byte.
pub const JOURNAL: &str = "57 53 45 4c 4f 47 30 31 \
    a5 00 00 00 19 00 00 00 00 00 00 00 00 00 00 00 00 00 00 00 00 01 00 00 00 00 00 00 00 00 5a 00";

/// The place of its closed gate.
pub const GATE: u64 = 39;

/// The effects of one command: element 1 makes the empty file `a`, whose version rises by 1.
pub const RECORD: &str = "01 00 00 00 02 01 00 00 00 00 00 00 00 01 00 00 00 00 00 00 00 01 \
    00 00 02 00 00 00 01 01 01 61 00 01 00 00 01 00 00 00 00 07 01 01 61 01";

/// The journal with that record behind it, settled.
pub const LONGER: &str = "57 53 45 4c 4f 47 30 31 \
    a5 00 00 00 19 00 00 00 00 00 00 00 00 00 00 00 00 00 00 00 00 01 00 00 00 00 00 00 00 00 5a \
    a5 00 00 00 2e 01 00 00 00 02 01 00 00 00 00 00 00 00 01 00 00 00 00 00 00 00 01 \
    00 00 02 00 00 00 01 01 01 61 00 01 00 00 01 00 00 00 00 07 01 01 61 01 5a 00";

/// The bytes that stand there in pairs of digits.
pub fn bytes(alloc: Global, text: &str) -> Result<Vec<u8>, Fail> {
    let mut all = Vec::new(alloc);
    for pair in text.split(' ') {
        all.push(u8::from_str_radix(pair, 16)?)?;
    }
    Ok(all)
}

/// The path of one segment.
pub fn path(alloc: Global, name: &str) -> Result<RelPath, Fail> {
    let mut segments = Vec::new(alloc);
    segments.push(String::from_str(alloc, name)?)?;
    Ok(RelPath::new(segments)?)
}

/// A tree whose files are named by the words, each with its name as content.
pub fn tree(alloc: Global, names: &str) -> Result<Tree, Fail> {
    let mut tree = Tree::new(alloc);
    for name in names.split(' ') {
        let path = path(alloc, name)?;
        if tree.fits(&path) {
            tree.put(path, Bytes::new(name.as_bytes().to_vec(alloc)?))?;
        }
    }
    Ok(tree)
}

/// A disk with files `c` and `k` and the journal, synced, whose calls with these numbers fail. The first two make it.
pub fn disk(alloc: Global, fails: Vec<u64>) -> Result<Quiet, Fail> {
    let disk = MemDisk::new(alloc, tree(alloc, "c k")?, fails);
    let mut quiet = Quiet { disk, faults: 0 };
    let _ = quiet.area_write(Area::LogA, 0, &bytes(alloc, JOURNAL)?);
    let _ = quiet.sync();
    Ok(quiet)
}
