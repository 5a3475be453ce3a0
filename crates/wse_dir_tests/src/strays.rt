// Links, and paths that are too long: nothing outside TREE and STORE is reached.
use crate::script::{answers, below, is_there, link, make, new_folder, placed, remove};
use std::fs;
use std::test::Fail;
use wse_dir::DirDisk;
use wse_disk::{Disk, Place};
use wse_path::RelPath;

/// Whether the calls answer so where `tree/link` leads to a folder with the file `f`, and whether that file stays as it was and
/// alone.
fn keeps_outside(rt: HostRuntime, words: &str, want: &str) -> Result<bool, Fail> {
    let folder = new_folder(rt)?;
    make(rt, folder.as_str(), "tree")?;
    make(rt, folder.as_str(), "outside")?;
    link(rt, folder.as_str(), "tree/link", "../outside")?;
    let kept = keeps_file(rt, folder.as_str(), words, want)?;
    remove(rt, folder.as_str())?;
    Ok(kept)
}

fn keeps_file(rt: HostRuntime, folder: &str, words: &str, want: &str) -> Result<bool, Fail> {
    let file = below(rt, folder, "outside/f")?;
    fs::write(&rt, file.as_str(), "kept")?;
    let mut disk = placed(rt, folder)?;
    let answered = answers(rt, &mut disk, words, want)?;
    let content = fs::read_to_string(&rt, file.as_str())?;
    let other = is_there(rt, folder, "outside/g")?;
    Ok(answered && content.as_str() == "kept" && !other)
}

#[test]
fn no_call_follows_a_link(rt: HostRuntime) -> Result<(), Fail> {
    let words = "store:link/f:x store:link/g:x erase:link/f load:link/f size:link/f";
    assert!(rt; keeps_outside(rt, words, "! ! ! ! !")?);
    assert!(rt; keeps_outside(rt, "store:link:x erase:link load:link", "! ! !")?);
    assert!(rt; keeps_outside(rt, "store:a:1 names", ". a,")?);
    Ok(())
}

#[test]
fn an_area_is_not_reached_by_a_link(rt: HostRuntime) -> Result<(), Fail> {
    let folder = new_folder(rt)?;
    make(rt, folder.as_str(), "store")?;
    link(rt, folder.as_str(), "store/log.a", "../outside")?;
    let mut disk = placed(rt, folder.as_str())?;
    let refused = answers(rt, &mut disk, "length write:0:abcd part:0", "! ! !")?;
    let outside = is_there(rt, folder.as_str(), "outside")?;
    remove(rt, folder.as_str())?;
    assert!(rt; refused && !outside);
    Ok(())
}

/// A path whose text has so many times 250 bytes, and the `/` between.
fn long_path(rt: HostRuntime, depth: usize) -> Result<RelPath, Fail> {
    let mut text = String::new(rt.alloc());
    for i in 0..depth {
        if i > 0 {
            text.push('/')?;
        }
        for _ in 0..250 {
            text.push('x')?;
        }
    }
    Ok(RelPath::from_text(rt.alloc(), text.as_str())?)
}

#[test]
fn a_path_that_is_too_long_leaves_no_folder(rt: HostRuntime) -> Result<(), Fail> {
    let folder = new_folder(rt)?;
    let path = long_path(rt, 16)?;
    let tree = below(
        rt,
        folder.as_str(),
        "a longer name for the tree of files of this one test, so that 4,016 bytes are too many",
    )?;
    let mut disk = DirDisk::new(rt);
    disk.place(tree.as_str(), "store of no use")?;
    let failed = disk.store(&path, b"x").is_err();
    let made = fs::exists(&rt, tree.as_str())?;
    remove(rt, folder.as_str())?;
    assert!(rt; failed && !made);
    Ok(())
}
