// States as bytes.
use crate::made::{bytes, is_state_right};
use std::alloc::Global;
use std::test::Fail;
use wse_codec::{Snapshot, read_state, write_state};
use wse_element::Elements;
use wse_path::Bumps;

/// The first state of a store.
const FIRST: &str = "\
    00 00 00 00 00 00 00 00 00 00 00 00 00 00 00 00 01 00 00 00 00 00 00 00 00";

/// The first state; one with two versions and an element; a version of 0; versions that fall; a byte too many; another
/// kind; an element without a part.
const ROWS: &str = "\
    00 00 00 00 00 00 00 00 00 00 00 00 00 00 00 00 01 00 00 00 00 00 00 00 00|-\n\
    00 00 00 00 00 00 00 00 05 00 00 00 00 00 00 00 03 00 00 00 02 01 01 61 00 00 00 01 02 01 61 \
    01 62 00 00 00 02 00 00 00 01 00 00 00 00 00 00 00 01 00 00 00 00 00 00 00 01 00 00 02 00 00 \
    00 01 01 01 61 00 01 00 00 01 00 00 00 00|-\n\
    00 00 00 00 00 00 00 00 05 00 00 00 00 00 00 00 03 00 00 00 01 01 01 61 00 00 00 00 00 00 00 \
    00|24\n\
    00 00 00 00 00 00 00 00 05 00 00 00 00 00 00 00 03 00 00 00 02 01 01 62 00 00 00 01 01 01 61 \
    00 00 00 01 00 00 00 00|28\n\
    00 00 00 00 00 00 00 00 00 00 00 00 00 00 00 00 01 00 00 00 00 00 00 00 00 00|25\n\
    01 00 00 00 00 00 00 00 00 00 00 00 00 00 00 00 01 00 00 00 00 00 00 00 00|0\n\
    00 00 00 00 00 00 00 00 05 00 00 00 00 00 00 00 03 00 00 00 00 00 00 00 01 00 00 00 00 00 00 \
    00 01 00 00 00 00 00 00 00 01 00 00 02 00 00 00 00|44";

fn is_first(state: &Snapshot) -> bool {
    state.serial == 0
        && state.next_id == 1
        && state.versions.is_empty()
        && state.elements.is_empty()
}

fn is_first_read(alloc: Global) -> Result<bool, Fail> {
    let body = bytes(alloc, FIRST)?;
    Ok(is_first(&read_state(alloc, &body)?))
}

/// Whether the state that is made here, and not read, is written as these bytes.
#[tactic(auto, using(crate::proofs::Writable::first_writable))]
fn is_first_written(alloc: Global) -> Result<bool, Fail> {
    let first = Snapshot {
        serial: 0,
        next_id: 1,
        versions: Bumps::new(Vec::new(alloc)),
        elements: Elements::new(Vec::new(alloc)),
    };
    let body = bytes(alloc, FIRST)?;
    let written = write_state(alloc, &first)?;
    Ok(written.as_slice() == body.as_slice())
}

fn are_right(alloc: Global) -> Result<bool, Fail> {
    for row in ROWS.split('\n') {
        if !is_state_right(alloc, row)? {
            return Ok(false);
        }
    }
    Ok(true)
}

#[test]
fn states_are_read_and_written(rt: HostRuntime) -> Result<(), Fail> {
    let alloc = rt.alloc();
    assert!(rt; is_first_read(alloc)?);
    assert!(rt; is_first_written(alloc)?);
    assert!(rt; are_right(alloc)?);
    Ok(())
}
