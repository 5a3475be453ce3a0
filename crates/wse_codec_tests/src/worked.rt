// The record of the worked example.
use crate::made::{RECORD, bytes, is_record};
use std::alloc::Global;
use std::test::Fail;
use wse_codec::{RecordRefused, read_record};
use wse_element::{Body, Effect, Element, Part};
use wse_path::RelPath;

fn is_a(path: &RelPath) -> bool {
    path.depth() == 1 && path.segment(0) == Some("a")
}

fn is_made(part: &Part) -> bool {
    match part.body() {
        Body::Whole {
            was: None,
            is: Some(is),
        } => { is.is_empty() && part.is_live() && part.is_valid() && is_a(part.path()) }
        _ => false,
    }
}

fn is_push(element: &Element) -> bool {
    match element.parts() {
        [part] => {
            element.id() == 1
                && element.origin() == 1
                && element.label().is_empty()
                && !element.splits()
                && element.is_done()
                && is_made(part)
        }
        _ => false,
    }
}

fn is_read(alloc: Global) -> Result<bool, Fail> {
    let effects = read_record(alloc, &bytes(alloc, RECORD)?)?;
    match effects.as_slice() {
        [Effect::Push(element), Effect::Bump { path, by: 1 }] => Ok(is_push(element) && is_a(path)),
        _ => Ok(false),
    }
}

#[test]
fn a_record_is_read_and_written(rt: HostRuntime) -> Result<(), Fail> {
    let alloc = rt.alloc();
    assert!(rt; is_read(alloc)?);
    assert!(rt; is_record(alloc, &bytes(alloc, RECORD)?)?);
    Ok(())
}

#[test]
fn what_is_no_record_is_told(rt: HostRuntime) -> Result<(), Fail> {
    let told = RecordRefused::NotARecord { at: 7 }.to_string(rt.alloc())?;
    assert!(rt; told.as_str() == "not a record at byte 7");
    Ok(())
}
