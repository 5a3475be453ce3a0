// What a crash may leave, as the choices of `image_at` give it.
use crate::script::{disk_after, has, marks, path};
use std::alloc::Global;
use std::test::Fail;
use wse_disk::{Area, Disk, MemDisk};

fn has_log(disk: &MemDisk, wanted: &str) -> bool {
    let bytes = disk.area(Area::LogA);
    let wanted = wanted.as_bytes();
    if wanted == b".".as_slice() {
        return bytes.is_empty();
    }
    bytes.len() == wanted.len()
        && bytes.iter().zip(wanted.iter()).all(|(byte, want)| *byte == *want
            || (*byte == 0 && *want == b'0'))
}

// Whether it has these contents of `a` and `b`, `-` for none, and these bytes in log A, `.` for none and `0` for a zero.
fn shows(alloc: Global, disk: &mut MemDisk, row: &str) -> Result<bool, Fail> {
    let mut parts = row.split(' ');
    let a = has(alloc, disk, "a", parts.next().unwrap_or("?"))?;
    let b = has(alloc, disk, "b", parts.next().unwrap_or("?"))?;
    Ok(a && b && has_log(disk, parts.next().unwrap_or("?")))
}

fn image(disk: &MemDisk, moment: u64, choice: u64) -> Result<MemDisk, Fail> {
    let last = disk.calls().len() as u64;
    Ok(disk.image_at(moment.min(last), choice)?)
}

fn is_image(
    alloc: Global,
    disk: &MemDisk,
    moment: u64,
    choice: u64,
    row: &str,
) -> Result<bool, Fail> {
    shows(alloc, &mut image(disk, moment, choice)?, row)
}

// Whether at that moment the choices from 0 on give these rows.
fn rows_are(alloc: Global, disk: &MemDisk, moment: u64, rows: &str) -> Result<bool, Fail> {
    for (choice, row) in rows.split(',').enumerate() {
        if !is_image(alloc, disk, moment, choice as u64, row)? {
            return Ok(false);
        }
    }
    Ok(true)
}

// Whether after these calls, of which those with these numbers fail, that moment gives these rows.
fn leaves(
    alloc: Global,
    fails: &[u64],
    words: &str,
    moment: u64,
    rows: &str,
) -> Result<bool, Fail> {
    rows_are(alloc, &disk_after(alloc, fails, words)?, moment, rows)
}

const FIVE_CALLS: &str = "store:a:x sync store:a:y erase:b patch:0:123";

const IMAGES: [&str; 6] = [
    "- B .,- B .,- B .,- B .,- B .,- B .,- B .,- B .",
    "- B .,x B .,- B .,- B .,x B .,- B .,- B .,x B .",
    "x B .,x B .,x B .,x B .,x B .,x B .,x B .,x B .",
    "x B .,y B .,- B .,x B .,y B .,- B .,x B .,y B .",
    "x B .,y - .,- - .,x - .,y - .,- - .,x - .,y - .",
    "x B .,y - 123,- - 000,x - .,y - .,- - .,x - .,y - .",
];

#[test]
fn images_of_moments_are_as_the_table_says(rt: HostRuntime) -> Result<(), Fail> {
    for (moment, rows) in IMAGES.iter().enumerate() {
        assert!(rt;
            leaves(rt.alloc(), &[], FIVE_CALLS, moment as u64, rows)?,
            "{moment}"
        );
    }
    Ok(())
}

const FAILED_STORE: &str = "store:a:x sync store:a:y sync";

fn reads_the_old_file(alloc: Global) -> Result<bool, Fail> {
    shows(alloc, &mut disk_after(alloc, &[3], FAILED_STORE)?, "x B .")
}

#[test]
fn failed_store_may_be_left_until_a_sync(rt: HostRuntime) -> Result<(), Fail> {
    assert!(rt; reads_the_old_file(rt.alloc())?);
    assert!(rt; leaves(rt.alloc(), &[3], FAILED_STORE, 3, "x B .,y B .")?);
    assert!(rt; leaves(rt.alloc(), &[3], FAILED_STORE, 4, "x B .,x B .")?);
    Ok(())
}

// Where the first of two writes is lost, zeros are left before the second.
const GAPS: &str = "- B .,- B abcde,- B 00000,- B 000de";

// Bytes in log A, and a sync; then a write at its end and one over old bytes.
const LOG_WRITES: &str = "patch:0:abc sync patch:3:de patch:1:XY";

#[test]
fn areas_keep_what_no_write_covers(rt: HostRuntime) -> Result<(), Fail> {
    assert!(rt;
        leaves(
            rt.alloc(),
            &[],
            LOG_WRITES,
            4,
            "- B abc,- B aXYde,- B a0000"
        )?
    );
    assert!(rt; leaves(rt.alloc(), &[], "patch:0:abc patch:3:de", 2, GAPS)?);
    Ok(())
}

// `b` is erased and `b/x` stored; where only the store is kept, the base is left.
const NO_TREE: &str = "erase:b store:b/x:X";

fn has_under_b(alloc: Global, choice: u64, content: &str) -> Result<bool, Fail> {
    let disk = disk_after(alloc, &[], NO_TREE)?;
    has(alloc, &mut image(&disk, 2, choice)?, "b/x", content)
}

#[test]
fn what_is_no_tree_is_taken_as_the_base(rt: HostRuntime) -> Result<(), Fail> {
    assert!(rt; leaves(rt.alloc(), &[], NO_TREE, 2, "- B .,- - .,- - .,- B .")?);
    assert!(rt; has_under_b(rt.alloc(), 1, "X")?);
    assert!(rt; has_under_b(rt.alloc(), 3, "-")?);
    Ok(())
}

fn image_is_fresh(alloc: Global) -> Result<bool, Fail> {
    let mut image = image(&disk_after(alloc, &[], FIVE_CALLS)?, 5, 1)?;
    let counts = image.calls().is_empty() && image.faults() == 0 && image.moment() == 0;
    let free = image.has_room(&path(alloc, "c")?);
    let marks = marks(alloc, &mut image, "store:c:z")?;
    Ok(counts && free && marks.as_str() == "." && image.moment() == 1)
}

#[test]
fn image_is_a_disk_of_its_own(rt: HostRuntime) -> Result<(), Fail> {
    assert!(rt; image_is_fresh(rt.alloc())?);
    Ok(())
}
