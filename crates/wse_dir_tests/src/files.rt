// Files that are stored, read and erased.
use crate::script::{answers, is_there, make, new_folder, placed, remove};
use std::test::Fail;

/// Whether the calls answer so on new folders, without a fault.
fn goes(rt: HostRuntime, words: &str, want: &str) -> Result<bool, Fail> {
    let folder = new_folder(rt)?;
    let mut disk = placed(rt, folder.as_str())?;
    let goes = answers(rt, &mut disk, words, want)?;
    remove(rt, folder.as_str())?;
    Ok(goes && disk.faults() == 0)
}

#[test]
fn a_file_has_the_bytes_that_were_stored_last(rt: HostRuntime) -> Result<(), Fail> {
    let words = "store:d/e/f:hello load:d/e/f store:d/e/f:hi load:d/e/f size:d/e/f";
    assert!(rt; goes(rt, words, ". hello . hi 2")?);
    let words = "store:f:hi store:f:hello load:f store:f: load:f size:f";
    assert!(rt; goes(rt, words, ". . hello .  0")?);
    Ok(())
}

#[test]
fn what_is_not_there_has_no_bytes(rt: HostRuntime) -> Result<(), Fail> {
    let words = "sync names load:f size:d/f erase:f erase:d/f";
    assert!(rt; goes(rt, words, ".  - - . .")?);
    let words = "store:d/f:x load:d size:d load:d/g erase:d load:d/f";
    assert!(rt; goes(rt, words, ". - - - . x")?);
    Ok(())
}

#[test]
fn names_come_in_path_order(rt: HostRuntime) -> Result<(), Fail> {
    let words = "store:b:1 store:a/z:2 store:a/b/c:3 store:a-b:4 names";
    assert!(rt; goes(rt, words, ". . . . a/b/c,a/z,a-b,b,")?);
    Ok(())
}

#[test]
fn folders_that_become_empty_go(rt: HostRuntime) -> Result<(), Fail> {
    let folder = new_folder(rt)?;
    let mut disk = placed(rt, folder.as_str())?;
    let words = "store:d/e/f:1 store:d/g:2 erase:d/e/f load:d/g";
    let erased = answers(rt, &mut disk, words, ". . . 2")?;
    let inner = is_there(rt, folder.as_str(), "tree/d/e")?;
    remove(rt, folder.as_str())?;
    assert!(rt; erased && !inner);
    Ok(())
}

#[test]
fn a_folder_stays_while_a_file_is_below_it(rt: HostRuntime) -> Result<(), Fail> {
    let folder = new_folder(rt)?;
    let mut disk = placed(rt, folder.as_str())?;
    let erased = answers(rt, &mut disk, "store:d/f:1 store:d/g:2 erase:d/f", ". . .")?;
    let stays = is_there(rt, folder.as_str(), "tree/d")?;
    remove(rt, folder.as_str())?;
    assert!(rt; erased && stays);
    Ok(())
}

#[test]
fn tree_stays_when_it_is_empty(rt: HostRuntime) -> Result<(), Fail> {
    let folder = new_folder(rt)?;
    let mut disk = placed(rt, folder.as_str())?;
    let erased = answers(rt, &mut disk, "store:f:1 erase:f sync names", ". . . ")?;
    let stays = is_there(rt, folder.as_str(), "tree")?;
    remove(rt, folder.as_str())?;
    assert!(rt; erased && stays);
    Ok(())
}

#[test]
fn a_folder_of_empty_folders_goes_for_a_file(rt: HostRuntime) -> Result<(), Fail> {
    let folder = new_folder(rt)?;
    make(rt, folder.as_str(), "tree/h/i/j")?;
    let mut disk = placed(rt, folder.as_str())?;
    let stored = answers(rt, &mut disk, "store:h:abc load:h names", ". abc h,")?;
    remove(rt, folder.as_str())?;
    assert!(rt; stored);
    Ok(())
}

#[test]
fn a_file_is_not_lost_for_another(rt: HostRuntime) -> Result<(), Fail> {
    let folder = new_folder(rt)?;
    let mut disk = placed(rt, folder.as_str())?;
    let words = "store:d/f:1 store:d:2 store:d/f/g:3 load:d/f names";
    let kept = answers(rt, &mut disk, words, ". ! ! 1 d/f,")?;
    remove(rt, folder.as_str())?;
    assert!(rt; kept && disk.faults() == 2);
    Ok(())
}
