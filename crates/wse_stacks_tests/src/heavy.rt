// Elements that count for as much as all may, and for more.
use crate::given::{element_of, live_part};
use crate::lines::unlinked;
use std::alloc::Global;
use std::test::Fail;
use wse_element::{Body, Elements};
use wse_path::Bytes;

/// How many bytes the made file has where its element counts for 2^29. The part counts for 256, and for a byte of its
/// label and one of its path's text.
const LARGEST: usize = (1 << 29) - 258;

/// An element alone, which makes a file of that many bytes.
fn made(alloc: Global, len: usize) -> Result<Elements, Fail> {
    let mut bytes = Vec::with_capacity(alloc, len)?;
    bytes.resize(len, 0)?;
    let body = Body::Whole {
        was: None,
        is: Some(Bytes::new(bytes)),
    };
    let mut parts = Vec::with_capacity(alloc, 1)?;
    parts.push(live_part(alloc, "a", body, true)?)?;
    let mut all = Vec::with_capacity(alloc, 1)?;
    all.push(element_of(alloc, 1, parts)?)?;
    Ok(Elements::new(all))
}

fn is_taken(alloc: Global) -> Result<bool, Fail> {
    Ok(unlinked(alloc, made(alloc, LARGEST)?, 2, 1)?.is_none())
}

fn is_refused(alloc: Global) -> Result<bool, Fail> {
    Ok(unlinked(alloc, made(alloc, LARGEST + 1)?, 2, 1)? == Some(1))
}

#[test]
fn a_weight_past_its_bound(rt: HostRuntime) -> Result<(), Fail> {
    assert!(rt; is_taken(rt.alloc())?);
    assert!(rt; is_refused(rt.alloc())?);
    Ok(())
}
