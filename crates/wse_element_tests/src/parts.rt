use crate::make::{content, is_content, live, path};
use std::alloc::Global;
use std::test::Fail;
use wse_element::{Body, Element, Part, PartState};

fn is_change(alloc: Global, was: &str, is: &str) -> Result<bool, Fail> {
    let was = content(alloc, was)?;
    let is = content(alloc, is)?;
    Ok(Body::Whole { was, is }.is_change())
}

#[test]
fn contents_differ_by_their_bytes_and_absence(rt: HostRuntime) -> Result<(), Fail> {
    let alloc = rt.alloc();
    assert!(rt; is_change(alloc, "-", "")?);
    assert!(rt; is_change(alloc, "x", "y")?);
    assert!(rt; !is_change(alloc, "-", "-")?);
    assert!(rt; !is_change(alloc, "x", "x")?);
    Ok(())
}

fn has_its_contents(alloc: Global, was: &str, is: &str) -> Result<bool, Fail> {
    let part = live(alloc, "a", was, is)?;
    Ok(is_content(&part.old_bytes(alloc)?, was) && is_content(&part.new_bytes(alloc)?, is))
}

fn has_none_when_lost(alloc: Global) -> Result<bool, Fail> {
    let mut part = live(alloc, "a", "x", "y")?;
    part.lose(PartState::Incompatible);
    part.invalidate();
    Ok(!part.is_valid() && part.old_bytes(alloc)?.is_none() && part.new_bytes(alloc)?.is_none())
}

#[test]
fn a_part_gives_its_contents_until_it_is_lost(rt: HostRuntime) -> Result<(), Fail> {
    let alloc = rt.alloc();
    assert!(rt; has_its_contents(alloc, "-", "x")?);
    assert!(rt; has_its_contents(alloc, "x", "")?);
    assert!(rt; has_none_when_lost(alloc)?);
    Ok(())
}

fn may_be_a_pair(alloc: Global, first: &str, second: &str) -> Result<bool, Fail> {
    let mut parts = Vec::new(alloc);
    parts.push(live(alloc, first, "-", "x")?)?;
    parts.push(live(alloc, second, "-", "y")?)?;
    Ok(Element::can_have(parts.as_slice()))
}

#[test]
fn the_paths_of_an_element_rise(rt: HostRuntime) -> Result<(), Fail> {
    let alloc = rt.alloc();
    assert!(rt; may_be_a_pair(alloc, "a/b", "a.b")?);
    assert!(rt; !may_be_a_pair(alloc, "a.b", "a/b")?);
    assert!(rt; !may_be_a_pair(alloc, "a", "a")?);
    Ok(())
}

fn is_at(alloc: Global, part: &Part, file: &str) -> Result<bool, Fail> {
    Ok(part.is_live() && part.state() == PartState::Live && *part.path() == path(alloc, file)?)
}

#[test]
fn a_part_names_its_path_and_state(rt: HostRuntime) -> Result<(), Fail> {
    let alloc = rt.alloc();
    assert!(rt; is_at(alloc, &live(alloc, "a/b", "-", "x")?, "a/b")?);
    Ok(())
}
