// What is made to last, and when.
use crate::script::{answers, new_folder, placed, remove};
use std::test::Fail;
use wse_dir::DirDisk;

/// How many flushes the calls make.
fn flushes(rt: HostRuntime, disk: &mut DirDisk<HostRuntime>, words: &str) -> Result<u64, Fail> {
    let before = disk.flushes();
    crate::script::told(rt, disk, words)?;
    Ok(disk.flushes().saturating_sub(before))
}

#[test]
fn each_write_is_flushed_and_each_folder_once(rt: HostRuntime) -> Result<(), Fail> {
    let folder = new_folder(rt)?;
    let mut disk = placed(rt, folder.as_str())?;
    let new = flushes(rt, &mut disk, "store:d/f:1 store:d/g:2 store:e:3")?;
    let folders = flushes(rt, &mut disk, "sync")?;
    let again = flushes(rt, &mut disk, "store:d/f:12 sync")?;
    remove(rt, folder.as_str())?;
    assert!(rt; new == 3 && folders == 3 && again == 1);
    Ok(())
}

#[test]
fn a_name_that_goes_is_made_to_last(rt: HostRuntime) -> Result<(), Fail> {
    let folder = new_folder(rt)?;
    let mut disk = placed(rt, folder.as_str())?;
    let made = answers(
        rt,
        &mut disk,
        "store:d/f:1 store:d/g:2 store:e/h:3 sync",
        ". . . .",
    )?;
    let file = flushes(rt, &mut disk, "erase:d/f sync")?;
    let last = flushes(rt, &mut disk, "erase:e/h sync")?;
    remove(rt, folder.as_str())?;
    assert!(rt; made && file == 2 && last == 1);
    Ok(())
}
