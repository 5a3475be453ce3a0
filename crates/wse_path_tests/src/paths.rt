use crate::make::{path, try_path};
use std::alloc::Global;
use std::test::Fail;
use wse_path::{Duplicate, PathRefused};

fn is_refused(alloc: Global, segments: &[&str], why: PathRefused) -> Result<bool, Fail> {
    Ok(try_path(alloc, segments)?.err() == Some(why))
}

fn is_bad_second(alloc: Global, segment: &str) -> Result<bool, Fail> {
    is_refused(
        alloc,
        &["a", segment, ""],
        PathRefused::Segment { index: 1 },
    )
}

// A path of that many segments, each as long as a segment may be.
fn is_long_path(alloc: Global, segments: usize) -> Result<Option<PathRefused>, Fail> {
    let mut name = String::new(alloc);
    for _ in 0..255 {
        name.push('n')?;
    }
    let mut all = Vec::new(alloc);
    for _ in 0..segments {
        all.push(name.as_str())?;
    }
    Ok(try_path(alloc, &all)?.err())
}

#[test]
fn a_path_is_refused_by_its_first_cause(rt: HostRuntime) -> Result<(), Fail> {
    let alloc = rt.alloc();
    assert!(rt; is_refused(alloc, &[], PathRefused::Empty)?);
    assert!(rt; is_refused(alloc, &["a"; 65], PathRefused::TooDeep { depth: 65 })?);
    for bad in ["", ".", "..", "a/b", "a\0"] {
        assert!(rt; is_bad_second(alloc, bad)?);
    }
    Ok(())
}

#[test]
fn a_text_has_at_most_4096_bytes(rt: HostRuntime) -> Result<(), Fail> {
    let alloc = rt.alloc();
    assert!(rt; is_long_path(alloc, 16)?.is_none());
    assert!(rt; is_long_path(alloc, 17)? == Some(PathRefused::TooLong { bytes: 4351 }));
    Ok(())
}

fn has_text_and_copy(alloc: Global, text: &str) -> Result<bool, Fail> {
    let below = path(alloc, text)?;
    Ok(
        below.text(alloc)?.as_str() == text
            && below.text_len() == text.len()
            && below.duplicate(alloc)? == below,
    )
}

fn comes_before(alloc: Global, one: &str, other: &str) -> Result<bool, Fail> {
    Ok(path(alloc, one)? < path(alloc, other)?)
}

fn is_under(alloc: Global, one: &str, other: &str) -> Result<bool, Fail> {
    Ok(path(alloc, one)?.is_under(&path(alloc, other)?))
}

#[test]
fn paths_have_texts_copies_and_an_order(rt: HostRuntime) -> Result<(), Fail> {
    let alloc = rt.alloc();
    assert!(rt; has_text_and_copy(alloc, "a/b")?);
    // By segments a/b comes first, although its text doesn't.
    assert!(rt; comes_before(alloc, "a/b", "a.b")?);
    assert!(rt; is_under(alloc, "a/b", "a")?);
    assert!(rt; !is_under(alloc, "a.b", "a")?);
    assert!(rt; path(alloc, "a/b")?.segment(1) == Some("b"));
    Ok(())
}
