// Images of the worked rows.
use std::alloc::Global;
use std::test::Fail;
use wse_disk::{Area, MemDisk};
use wse_path::{Bytes, Duplicate, RelPath, Tree};
use wse_plain::Files;
use wse_slow_reader::Image;

/// The journal of a store over no files in which one edit made the empty file `a`. Its first 40 bytes with a closed gate at the
/// end are that of the store before the edit.
pub const JOURNAL: &str =
    "57 53 45 4c 4f 47 30 31 a5 00 00 00 19 00 00 00 00 00 00 00 00 00 00 00 00 00 00 00 00 01 \
    00 00 00 00 00 00 00 00 5a a5 00 00 00 2e 01 00 00 00 02 01 00 00 00 00 00 00 00 01 00 00 00 00 00 00 00 01 \
    00 00 02 00 00 00 01 01 01 61 00 01 00 00 01 00 00 00 00 07 01 01 61 01 5a 00";

/// The effects of that edit.
pub const RECORD: &str = "01 00 00 00 02 01 00 00 00 00 00 00 00 01 00 00 00 00 00 00 00 01 \
    00 00 02 00 00 00 01 01 01 61 00 01 00 00 01 00 00 00 00 07 01 01 61 01";

/// The bytes that stand there in pairs of digits.
pub fn bytes(alloc: Global, text: &str) -> Result<Vec<u8>, Fail> {
    let mut all = Vec::new(alloc);
    for pair in text.split(' ') {
        all.push(u8::from_str_radix(pair, 16)?)?;
    }
    Ok(all)
}

/// The path of one segment.
pub fn path(alloc: Global, name: &str) -> Result<RelPath, Fail> {
    let mut segments = Vec::new(alloc);
    segments.push(String::from_str(alloc, name)?)?;
    Ok(RelPath::new(segments)?)
}

/// A tree of the files that the words name, each with what stands behind its `=`.
pub fn tree(alloc: Global, words: &str) -> Result<Tree, Fail> {
    let mut tree = Tree::new(alloc);
    for word in words.split(' ') {
        let (name, content) = word.split_once('=').unwrap_or((word, ""));
        let path = path(alloc, name)?;
        if tree.fits(&path) {
            tree.put(path, Bytes::new(content.as_bytes().to_vec(alloc)?))?;
        }
    }
    Ok(tree)
}

/// The files of a tree as a list.
pub fn files(alloc: Global, tree: &Tree) -> Result<Files, Fail> {
    let mut all = Vec::new(alloc);
    for at in 0..tree.count() {
        let (path, bytes) = tree.file_at(at);
        all.push((path.duplicate(alloc)?, Bytes::new(bytes.to_vec(alloc)?)))?;
    }
    Ok(all)
}

/// The image with these files and this journal.
pub fn image(alloc: Global, words: &str, journal: Vec<u8>) -> Result<Image, Fail> {
    let files = files(alloc, &tree(alloc, words)?)?;
    Ok(Image::new(files, Vec::new(alloc), journal, Vec::new(alloc)))
}

/// What the disk holds.
pub fn image_of(alloc: Global, disk: MemDisk) -> Result<Image, Fail> {
    let switch = disk.area(Area::Switch).to_vec(alloc)?;
    let log_a = disk.area(Area::LogA).to_vec(alloc)?;
    let log_b = disk.area(Area::LogB).to_vec(alloc)?;
    let files = files(alloc, &disk.into_tree())?;
    Ok(Image::new(files, switch, log_a, log_b))
}
