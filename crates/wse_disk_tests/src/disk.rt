// A disk in memory, call by call.
use crate::script::{marks, path};
use std::alloc::Global;
use std::test::Fail;
use wse_disk::{Disk, MemDisk};
use wse_path::{RelPath, Tree};

const ALL_CALLS: &str = "store:a:text sync names size:a load:a place erase:a";

// Whether of all calls just the one with this number fails, as the marks tell, and is counted; 0 for none.
fn fails_alone(alloc: Global, number: u64, wanted: &str) -> Result<bool, Fail> {
    let mut disk = MemDisk::new(alloc, Tree::new(alloc), [number].to_vec(alloc)?);
    let marks = marks(alloc, &mut disk, ALL_CALLS)?;
    let counted = disk.faults() == number.min(1) && disk.starved() == 0;
    Ok(marks.as_str() == wanted && counted && disk.moment() == 3)
}

const MARKS: &str = "....... !...... .!..... ..!.... ...!... ....!.. .....!. ......!";

#[test]
fn the_call_with_that_number_fails_and_no_other(rt: HostRuntime) -> Result<(), Fail> {
    for (number, wanted) in MARKS.split(' ').enumerate() {
        assert!(rt;
            fails_alone(rt.alloc(), number as u64, wanted)?,
            "at {number}"
        );
    }
    Ok(())
}

fn failed_store_leaves_the_tree(alloc: Global) -> Result<bool, Fail> {
    let mut disk = MemDisk::new(alloc, Tree::new(alloc), [1].to_vec(alloc)?);
    let marks = marks(alloc, &mut disk, "store:a:text")?;
    let faults = disk.faults();
    Ok(marks.as_str() == "!" && faults == 1 && disk.into_tree().count() == 0)
}

#[test]
fn a_store_that_fails_leaves_the_tree(rt: HostRuntime) -> Result<(), Fail> {
    assert!(rt; failed_store_leaves_the_tree(rt.alloc())?);
    Ok(())
}

fn paths(alloc: Global, texts: &str) -> Result<Vec<RelPath>, Fail> {
    let mut paths = Vec::new(alloc);
    for text in texts.split(' ') {
        paths.push(path(alloc, text)?)?;
    }
    Ok(paths)
}

// Whether all calls are done on a disk without files, and the names are these paths then.
fn names_are(alloc: Global, words: &str, texts: &str) -> Result<bool, Fail> {
    let mut disk = MemDisk::never_failing(alloc, Tree::new(alloc));
    let failed = marks(alloc, &mut disk, words)?.contains('!');
    let mut names = Vec::new(alloc);
    disk.names(alloc, &mut names)?;
    Ok(!failed && names.as_slice() == paths(alloc, texts)?.as_slice())
}

const FIVE_STORES: &str = "store:a:a store:b:b store:c:c store:d:d store:e:e";

fn erased_in_any_order(alloc: Global) -> Result<bool, Fail> {
    let words = format!(in alloc; "{FIVE_STORES} erase:a erase:d erase:e erase:c")?;
    names_are(alloc, words.as_str(), "b")
}

#[test]
fn files_are_named_in_path_order_and_erased_in_any(rt: HostRuntime) -> Result<(), Fail> {
    assert!(rt; names_are(rt.alloc(), "store:b:b store:a:a", "a b")?);
    assert!(rt; erased_in_any_order(rt.alloc())?);
    Ok(())
}
