// What locks do, line by line.
use crate::make::{path, paths};
use std::alloc::Global;
use std::test::Fail;
use wse_locks::{LockRefused, Locks, NotHeld};
use wse_path::Files;

fn number(text: &str) -> u32 {
    text.parse().unwrap_or(u32::MAX)
}

fn takes(alloc: Global, locks: &mut Locks, by: u32, texts: &str) -> Result<bool, Fail> {
    Ok(locks.take(alloc, by, &paths(alloc, texts)?).is_ok())
}

// Whether the locks before the `>` are refused, since another holds just the path behind it.
fn is_held(alloc: Global, locks: &mut Locks, by: u32, words: &str) -> Result<bool, Fail> {
    let (texts, held) = words.split_once(" > ").unwrap_or((words, ""));
    match locks.take(alloc, by, &paths(alloc, texts)?) {
        Err(LockRefused::Held { files }) => {
            Ok(files.as_slice() == paths(alloc, held)?.as_slice())
        }
        _ => Ok(false),
    }
}

fn frees(alloc: Global, locks: &mut Locks, by: u32, texts: &str) -> Result<bool, Fail> {
    Ok(locks.free(by, &paths(alloc, texts)?).is_ok())
}

// Whether the locks before the `>` are not freed, since the one with the index behind it isn't held.
fn is_not_held(alloc: Global, locks: &mut Locks, by: u32, words: &str) -> Result<bool, Fail> {
    let (texts, index) = words.split_once(" > ").unwrap_or((words, ""));
    match locks.free(by, &paths(alloc, texts)?) {
        Err(NotHeld { index: first }) => Ok(first as u64 == u64::from(number(index))),
        Ok(()) => Ok(false),
    }
}

fn leaves(locks: &mut Locks, by: u32) -> bool {
    locks.leave(by);
    true
}

// Whether each of these paths has this holder, 0 being none.
fn have_holder(alloc: Global, locks: &Locks, by: u32, texts: &str) -> Result<bool, Fail> {
    for file in &paths(alloc, texts)? {
        if locks.holder(file).unwrap_or(0) != by {
            return Ok(false);
        }
    }
    Ok(true)
}

// Whether the line is done, or right: `take BY PATH ..`, `held BY PATH .. > PATH ..`, `free BY PATH ..`, `not-held BY PATH .. > INDEX`,
// `leave BY`, or `holder BY PATH ..`.
fn is_right(alloc: Global, locks: &mut Locks, line: &str) -> Result<bool, Fail> {
    let (word, words) = line.split_once(' ').unwrap_or((line, ""));
    let (by, rest) = words.split_once(' ').unwrap_or((words, ""));
    let by = number(by);
    match word {
        "take" => takes(alloc, locks, by, rest),
        "held" => is_held(alloc, locks, by, rest),
        "free" => frees(alloc, locks, by, rest),
        "not-held" => is_not_held(alloc, locks, by, rest),
        "leave" => Ok(leaves(locks, by)),
        "holder" => have_holder(alloc, &*locks, by, rest),
        _ => Ok(false),
    }
}

// Whether each line is right, one after another, where none is held at first.
fn are_right(alloc: Global, lines: &str) -> Result<bool, Fail> {
    let mut locks = Locks::new(alloc);
    for line in lines.lines() {
        if !is_right(alloc, &mut locks, line.trim())? {
            return Ok(false);
        }
    }
    Ok(true)
}

// One's own may be taken again.
const ALL_OR_NONE: &str = "take 2 b
    held 1 a b b > b
    holder 0 a
    take 2 b a
    holder 2 a b";

#[test]
fn locks_are_taken_all_or_none(rt: HostRuntime) -> Result<(), Fail> {
    assert!(rt; are_right(rt.alloc(), ALL_OR_NONE)?);
    Ok(())
}

const FREED: &str = "take 2 b
    not-held 1 b > 0
    not-held 2 b a > 1
    holder 2 b";

#[test]
fn a_lock_is_freed_by_its_holder(rt: HostRuntime) -> Result<(), Fail> {
    assert!(rt; are_right(rt.alloc(), FREED)?);
    Ok(())
}

const FREED_ONCE: &str = "take 2 a b
    free 2 b b
    holder 0 b
    holder 2 a";

#[test]
fn a_path_that_is_named_twice_is_freed_once(rt: HostRuntime) -> Result<(), Fail> {
    assert!(rt; are_right(rt.alloc(), FREED_ONCE)?);
    Ok(())
}

const LEAVES: &str = "take 2 b d/x
    take 1 a c
    leave 2
    holder 0 b d/x
    holder 1 a c";

#[test]
fn one_who_leaves_takes_no_lock_of_another(rt: HostRuntime) -> Result<(), Fail> {
    assert!(rt; are_right(rt.alloc(), LEAVES)?);
    Ok(())
}

fn has_equal_copy(alloc: Global, text: &str) -> Result<bool, Fail> {
    let mut locks = Locks::new(alloc);
    let took = takes(alloc, &mut locks, 2, text)?;
    Ok(took && locks.duplicate(alloc)?.holder(&path(alloc, text)?) == Some(2))
}

#[test]
fn a_copy_has_the_same_locks(rt: HostRuntime) -> Result<(), Fail> {
    assert!(rt; has_equal_copy(rt.alloc(), "b")?);
    Ok(())
}

fn is_told(alloc: Global, texts: &str, words: &str) -> Result<bool, Fail> {
    let files = Files::new(paths(alloc, texts)?);
    let told = LockRefused::Held { files }.to_string(alloc)?;
    Ok(told.as_str() == words)
}

#[test]
fn locks_of_another_are_told(rt: HostRuntime) -> Result<(), Fail> {
    assert!(rt; is_told(rt.alloc(), "a", "held: a")?);
    assert!(rt; is_told(rt.alloc(), "a b/c", "held: a, b/c")?);
    Ok(())
}

#[test]
fn a_lock_that_is_not_held_is_told(rt: HostRuntime) -> Result<(), Fail> {
    let told = NotHeld { index: 1 }.to_string(rt.alloc())?;
    assert!(rt; told.as_str() == "path 1 is not held");
    Ok(())
}
