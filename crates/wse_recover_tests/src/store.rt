// Disks of the worked rows.
use std::alloc::Global;
use std::test::Fail;
use wse_disk::{Area, Disk, MemDisk};
use wse_path::{Bytes, RelPath, Tree};
use wse_quiet_disk::QuietDisk;

/// The bytes that stand there in pairs of digits.
pub fn bytes(alloc: Global, text: &str) -> Result<Vec<u8>, Fail> {
    let mut all = Vec::new(alloc);
    for pair in text.split(' ') {
        all.push(u8::from_str_radix(pair, 16)?)?;
    }
    Ok(all)
}

/// The path of one segment.
pub fn path(alloc: Global, name: &str) -> Result<RelPath, Fail> {
    let mut segments = Vec::new(alloc);
    segments.push(String::from_str(alloc, name)?)?;
    Ok(RelPath::new(segments)?)
}

/// A tree whose files are named by the words, each with its name as content.
pub fn tree(alloc: Global, names: &str) -> Result<Tree, Fail> {
    let mut tree = Tree::new(alloc);
    for name in names.split(' ') {
        let path = path(alloc, name)?;
        if tree.fits(&path) {
            tree.put(path, Bytes::new(name.as_bytes().to_vec(alloc)?))?;
        }
    }
    Ok(tree)
}

/// A disk without files whose calls with these numbers fail.
pub fn empty(alloc: Global, fails: Vec<u64>) -> QuietDisk {
    let disk = MemDisk::new(alloc, Tree::new(alloc), fails);
    QuietDisk::new(disk)
}

/// A disk with these files.
pub fn with_files(alloc: Global, names: &str) -> Result<QuietDisk, Fail> {
    let disk = MemDisk::never_failing(alloc, tree(alloc, names)?);
    Ok(QuietDisk::new(disk))
}

/// The journal of a store over no files in which one edit made the empty file `a`.
pub const JOURNAL: &str =
    "57 53 45 4c 4f 47 30 31 a5 00 00 00 19 00 00 00 00 00 00 00 00 00 00 00 00 00 00 00 00 01 \
    00 00 00 00 00 00 00 00 5a a5 00 00 00 2e 01 00 00 00 02 01 00 00 00 00 00 00 00 01 00 00 00 00 00 00 00 01 \
    00 00 02 00 00 00 01 01 01 61 00 01 00 00 01 00 00 00 00 07 01 01 61 01 5a 00";

/// The journal of a store whose first state has the element that made `a`.
pub const ELEMENTS: &str =
    "57 53 45 4c 4f 47 30 31 a5 00 00 00 43 00 00 00 00 00 00 00 00 01 00 00 00 00 00 00 00 02 \
    00 00 00 01 01 01 61 00 00 00 01 00 00 00 01 00 00 00 00 00 00 00 01 00 00 00 00 00 00 00 01 00 00 02 \
    00 00 00 01 01 01 61 00 01 00 00 01 00 00 00 00 5a 00";

/// A disk without files whose areas begin with these bytes.
pub fn with_areas(alloc: Global, areas: &[(Area, &[u8])]) -> QuietDisk {
    let mut disk = empty(alloc, Vec::new(alloc));
    for (area, bytes) in areas {
        let _ = disk.area_write(*area, 0, bytes);
    }
    disk
}

/// A disk without files whose first log is these bytes.
pub fn with_journal(alloc: Global, journal: &[u8]) -> QuietDisk {
    with_areas(alloc, &[(Area::LogA, journal)])
}
