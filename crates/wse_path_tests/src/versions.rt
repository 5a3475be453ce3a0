// What versions tell, line by line.
use crate::make::{path, paths};
use crate::many::{bump_all, names, raises, some_paths};
use std::alloc::Global;
use std::test::Fail;
use wse_path::{Duplicate, RelPath, Versions};

fn number(text: &str) -> u32 {
    text.parse().unwrap_or(u32::MAX)
}

// Raises the path's version.
fn raise(alloc: Global, versions: &mut Versions, file: &RelPath, by: u32) -> Result<bool, Fail> {
    versions.reserve(1)?;
    if versions.get(file) >= 9 || by >= 9 || by == 0 {
        return Ok(false);
    }
    versions.bump(file.duplicate(alloc)?, by);
    Ok(true)
}

// Raises the versions of the paths, all at once.
fn raise_all(alloc: Global, versions: &mut Versions, by: u32, texts: &str) -> Result<bool, Fail> {
    let raises = raises(alloc, some_paths(alloc, texts)?, by)?;
    Ok(bump_all(alloc, versions, raises)?)
}

fn have_version(
    alloc: Global,
    versions: &Versions,
    number: u32,
    texts: &str,
) -> Result<bool, Fail> {
    for file in &paths(alloc, texts)? {
        if versions.get(file) != number {
            return Ok(false);
        }
    }
    Ok(true)
}

// Whether the line is done, or right: `raise BY PATH`, `raise-all BY PATH ..`, `are VERSION PATH ..`, or `known COUNT BYTES`.
fn is_right(alloc: Global, versions: &mut Versions, line: &str) -> Result<bool, Fail> {
    let (word, words) = line.split_once(' ').unwrap_or((line, ""));
    let (first, rest) = words.split_once(' ').unwrap_or((words, ""));
    match word {
        "raise" => raise(alloc, versions, &path(alloc, rest)?, number(first)),
        "raise-all" => raise_all(alloc, versions, number(first), rest),
        "are" => have_version(alloc, &*versions, number(first), rest),
        "known" => Ok(
            versions.count() as u64 == u64::from(number(first))
                && versions.known() == u64::from(number(rest)),
        ),
        _ => Ok(false),
    }
}

// Whether each line is right, one after another, where no version is known at first.
fn are_right(alloc: Global, lines: &str) -> Result<bool, Fail> {
    let mut versions = Versions::new(alloc);
    for line in lines.lines() {
        if !is_right(alloc, &mut versions, line.trim())? {
            return Ok(false);
        }
    }
    Ok(true)
}

const FROM_ZERO: &str = "are 0 d/x
    raise 1 d/x
    raise 2 d/x
    are 3 d/x
    known 1 35
    are 0 d";

#[test]
fn versions_rise_from_zero(rt: HostRuntime) -> Result<(), Fail> {
    assert!(rt; are_right(rt.alloc(), FROM_ZERO)?);
    Ok(())
}

// Each path counts for 32 and the bytes of its text, however high its version is.
const KNOWN: &str = "known 0 0
    raise 1 d/x
    known 1 35
    raise 1 d/x
    known 1 35
    raise 1 a
    known 2 68";

#[test]
fn a_new_path_is_one_more_that_is_known(rt: HostRuntime) -> Result<(), Fail> {
    assert!(rt; are_right(rt.alloc(), KNOWN)?);
    Ok(())
}

const TOGETHER: &str = "raise-all 1 d/x a
    known 2 68
    raise-all 2 z b a
    known 4 134
    raise-all 3
    known 4 134
    are 3 a
    are 2 b z";

#[test]
fn versions_rise_together(rt: HostRuntime) -> Result<(), Fail> {
    assert!(rt; are_right(rt.alloc(), TOGETHER)?);
    Ok(())
}

#[test]
fn the_version_of_one_path_rises_alone(rt: HostRuntime) -> Result<(), Fail> {
    assert!(rt; are_right(rt.alloc(), "raise-all 7 d/x\nknown 1 35")?);
    Ok(())
}

const SOME_AGAIN: &str = "known 1000 37000
    raise-all 3 f0999 f0000 e
    known 1001 37033
    are 1 f0001 f0500 f0998
    are 4 f0000 f0999";

fn all_rise_at_once(alloc: Global) -> Result<bool, Fail> {
    let all = names(alloc, 1000)?;
    let lines = format!(in alloc; "raise-all 1 {all}\n{SOME_AGAIN}")?;
    are_right(alloc, lines.as_str())
}

#[test]
fn the_versions_of_1000_paths_rise_at_once(rt: HostRuntime) -> Result<(), Fail> {
    assert!(rt; all_rise_at_once(rt.alloc())?);
    Ok(())
}

// Versions with that number at the path, and room for as many more.
fn versions_at(alloc: Global, text: &str, number: u32, room: usize) -> Result<Versions, Fail> {
    let mut versions = Versions::new(alloc);
    raise(alloc, &mut versions, &path(alloc, text)?, number)?;
    versions.reserve(room)?;
    Ok(versions)
}

fn has_equal_copy(alloc: Global, text: &str) -> Result<bool, Fail> {
    let copy = versions_at(alloc, text, 3, 0)?.duplicate(alloc)?;
    let file = path(alloc, text)?;
    Ok(copy.path_at(0) == Some(&file) && copy.get(&file) == 3)
}

#[test]
fn a_copy_has_the_same_versions(rt: HostRuntime) -> Result<(), Fail> {
    assert!(rt; has_equal_copy(rt.alloc(), "d/x")?);
    Ok(())
}

fn are_equal(alloc: Global, text: &str, number: u32) -> Result<bool, Fail> {
    Ok(versions_at(alloc, "d/x", 2, 0)? == versions_at(alloc, text, number, 9)?)
}

fn is_number(alloc: Global, index: usize) -> Result<bool, Fail> {
    Ok(versions_at(alloc, "d/x", 2, 0)?.number_at(index) == Some(2))
}

// Whether versions with this number at this path equal those with 2 at d/x.
const EQUAL: [(&str, u32, bool); 3] = [("d/x", 2, true), ("d/x", 3, false), ("d/y", 2, false)];

#[test]
fn equal_versions_have_equal_entries(rt: HostRuntime) -> Result<(), Fail> {
    for (text, number, equal) in &EQUAL {
        assert!(rt; are_equal(rt.alloc(), text, *number)? == *equal);
    }
    Ok(())
}

#[test]
fn each_entry_has_its_number(rt: HostRuntime) -> Result<(), Fail> {
    assert!(rt; is_number(rt.alloc(), 0)?);
    assert!(rt; !is_number(rt.alloc(), 1)?);
    Ok(())
}
