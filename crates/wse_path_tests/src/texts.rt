use crate::make::path;
use std::alloc::Global;
use std::test::Fail;
use wse_path::{PathRefused, RelPath, TextRefused};

fn is_read(alloc: Global, text: &str, depth: usize) -> Result<bool, Fail> {
    let read = RelPath::from_text(alloc, text)?;
    let written = format!(in alloc; "{read}")?;
    Ok(read.segments().len() == depth && read == path(alloc, text)? && written.as_str() == text)
}

fn is_no_path(alloc: Global, text: &str, why: PathRefused) -> bool {
    RelPath::from_text(alloc, text).err() == Some(TextRefused::Path(why))
}

#[test]
fn a_path_is_read_from_its_text(rt: HostRuntime) -> Result<(), Fail> {
    let alloc = rt.alloc();
    assert!(rt; is_read(alloc, "a", 1)? && is_read(alloc, "a/b c/d.rs", 3)?);
    assert!(rt; is_no_path(alloc, "", PathRefused::Segment { index: 0 }));
    assert!(rt; is_no_path(alloc, "a//b", PathRefused::Segment { index: 1 }));
    assert!(rt; is_no_path(alloc, "a/../b/", PathRefused::Segment { index: 1 }));
    Ok(())
}

fn has_words(alloc: Global, why: PathRefused, words: &str) -> Result<bool, Fail> {
    Ok(format!(in alloc; "{why}")?.as_str() == words)
}

#[test]
fn a_refusal_is_told_in_words(rt: HostRuntime) -> Result<(), Fail> {
    let alloc = rt.alloc();
    assert!(rt; has_words(alloc, PathRefused::Empty, "no segment")?);
    assert!(rt; has_words(alloc, PathRefused::TooDeep { depth: 65 }, "65 segments")?);
    let unnamed = PathRefused::Segment { index: 2 };
    assert!(rt; has_words(alloc, unnamed, "segment 2 is not a name")?);
    assert!(rt; has_words(alloc, PathRefused::TooLong { bytes: 4097 }, "4097 bytes")?);
    Ok(())
}

fn is_told(alloc: Global, text: &str, words: &str) -> Result<bool, Fail> {
    match RelPath::from_text(alloc, text) {
        Err(why) => Ok(format!(in alloc; "{why}")?.as_str() == words),
        Ok(_) => Ok(false),
    }
}

#[test]
fn a_text_is_refused_in_the_words_of_its_path(rt: HostRuntime) -> Result<(), Fail> {
    assert!(rt; is_told(rt.alloc(), "a//b", "segment 1 is not a name")?);
    Ok(())
}

fn has_string(alloc: Global, text: &str) -> Result<bool, Fail> {
    Ok(path(alloc, text)?.text(alloc)?.into_string().as_str() == text)
}

#[test]
fn a_text_is_taken_out(rt: HostRuntime) -> Result<(), Fail> {
    assert!(rt; has_string(rt.alloc(), "a/b")?);
    Ok(())
}
