// The areas of the store, and who holds it.
use crate::script::{answers, below, is_there, new_folder, placed, remove};
use std::test::Fail;
use wse_dir::DirDisk;
use wse_disk::Place;

#[test]
fn an_area_is_written_over_and_past_its_end(rt: HostRuntime) -> Result<(), Fail> {
    let folder = new_folder(rt)?;
    let mut disk = placed(rt, folder.as_str())?;
    let words = "length write:2:abcd length part:0 write:3:XY part:2 part:3 sync";
    let answered = answers(rt, &mut disk, words, "0 . 6 00ab . aXYd ! .")?;
    let made = is_there(rt, folder.as_str(), "store/log.a")?;
    let other = is_there(rt, folder.as_str(), "tree")?;
    remove(rt, folder.as_str())?;
    assert!(rt; answered && made && !other);
    Ok(())
}

/// Whether a further disk can be placed there.
fn can_be_placed(rt: HostRuntime, folder: &str) -> Result<bool, Fail> {
    let tree = below(rt, folder, "tree")?;
    let store = below(rt, folder, "store")?;
    Ok(
        DirDisk::new(rt)
            .place(tree.as_str(), store.as_str())
            .is_ok(),
    )
}

#[test]
fn a_store_is_held_by_one_disk(rt: HostRuntime) -> Result<(), Fail> {
    let folder = new_folder(rt)?;
    let mut first = placed(rt, folder.as_str())?;
    let mut second = placed(rt, folder.as_str())?;
    let written = answers(rt, &mut first, "write:0:abcd", ".")?;
    let refused = answers(rt, &mut second, "write:0:wxyz", "!")?;
    let third = can_be_placed(rt, folder.as_str())?;
    remove(rt, folder.as_str())?;
    assert!(rt; written && refused && !third);
    Ok(())
}

/// Writes four bytes into log A by a disk that is gone then.
fn write_once(rt: HostRuntime, folder: &str) -> Result<bool, Fail> {
    let mut disk = placed(rt, folder)?;
    answers(rt, &mut disk, "write:0:abcd", ".")
}

#[test]
fn a_store_is_free_when_its_disk_is_gone(rt: HostRuntime) -> Result<(), Fail> {
    let folder = new_folder(rt)?;
    let written = write_once(rt, folder.as_str())?;
    let mut later = placed(rt, folder.as_str())?;
    let read = answers(rt, &mut later, "part:0 write:2:XY part:0", "abcd . abXY")?;
    remove(rt, folder.as_str())?;
    assert!(rt; written && read);
    Ok(())
}
