// The worked journal, whose last record isn't settled, over trees in which what it sets is old, new, or something else.
use crate::store::{JOURNAL, bytes, image};
use crate::told::told;
use std::alloc::Global;
use std::test::Fail;

// What the image with these files stands for, where the settled byte of the last record is that one.
fn with_mark(alloc: Global, words: &str, mark: u8) -> Result<String, Fail> {
    let mut journal = bytes(alloc, JOURNAL)?;
    if journal.len() > 90 {
        journal[90] = mark;
    }
    told(alloc, &image(alloc, words, journal)?)
}

// Whether the files are those that are there with `a`, empty, whatever is there.
fn is_made(alloc: Global, words: &str) -> Result<bool, Fail> {
    let zero = with_mark(alloc, words, 0)?;
    let other = with_mark(alloc, words, 0xa5)?;
    Ok(zero.as_str() == "a:0 k:1 / a1 / 1 / 2 1" && other.as_str() == zero.as_str())
}

#[test]
fn an_unsettled_record_is_made(rt: HostRuntime) -> Result<(), Fail> {
    let alloc = rt.alloc();
    assert!(rt; is_made(alloc, "k=k")?);
    assert!(rt; is_made(alloc, "a= k=k")?);
    assert!(rt; is_made(alloc, "a=other k=k")?);
    Ok(())
}

#[test]
fn a_settled_record_is_left(rt: HostRuntime) -> Result<(), Fail> {
    let alloc = rt.alloc();
    let absent = with_mark(alloc, "k=k", 0x5a)?;
    assert!(rt; absent.as_str() == "k:1 / a1 / 1 / 2 1");
    let other = with_mark(alloc, "a=other k=k", 0x5a)?;
    assert!(rt; other.as_str() == "a:5 k:1 / a1 / 1 / 2 1");
    Ok(())
}
