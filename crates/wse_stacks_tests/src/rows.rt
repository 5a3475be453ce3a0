// Worked cases.
use crate::given::element;
use crate::lines::{holds, unlinked};
use std::alloc::Global;
use std::test::Fail;
use wse_element::Elements;

#[test]
fn an_element_is_split_and_a_piece_undone(rt: HostRuntime) -> Result<(), Fail> {
    assert!(rt;
        holds(
            rt.alloc(),
            "do push 1 a:-:x,b:-:y
        do push 2 b:y:z
        past a 1
        past b 2
        do split 1 3;back 3
        ids 3 4 2
        past b 2
        past a 0
        future a 3
        turns a 2
        turns b 3
        next 5
        serial 3
        do back 2
        past b 4"
        )?
    );
    Ok(())
}

#[test]
fn a_push_needs_its_paths_without_a_future(rt: HostRuntime) -> Result<(), Fail> {
    assert!(rt;
        holds(
            rt.alloc(),
            "do push 1 a:-:x
        do push 2 a:x:y,b:-:z
        do back 2
        future a 2
        no 0 push 3 a:x:w
        no 1 bump a;push 3 a:x:w
        do drop a;push 3 a:x:w
        ids 1 2 3
        future a 0
        future b 2
        past a 3
        do back 3
        do drop a;push 4 a:x:v
        ids 1 2 4"
        )?
    );
    Ok(())
}

#[test]
fn one_move_is_the_closest_and_alone(rt: HostRuntime) -> Result<(), Fail> {
    assert!(rt;
        holds(
            rt.alloc(),
            "do push 1 a:-:x,b:-:y
        do push 2 b:y:z
        no 0 back 1
        no 1 back 2;back 1
        serial 2
        ids 1 2
        do back 2
        do back 1
        no 0 forward 2
        no 1 forward 1;forward 2
        do forward 1
        past a 1
        past b 1
        future b 2"
        )?
    );
    Ok(())
}

#[test]
fn losses_and_invalid_parts(rt: HostRuntime) -> Result<(), Fail> {
    assert!(rt;
        holds(
            rt.alloc(),
            "do push 1 a:-:x,b:-:y
        do push 2 b:y:z
        paths a b
        weight 778
        do split 1 3
        weight 778
        no 0 close c
        do invalid b
        no 0 invalid b
        do set b;bump b
        turns b 4
        no 0 back 2
        left a 519
        left b 259
        left c 778
        do close b
        ids 3
        weight 259
        turns b 5
        turns a 2
        paths a"
        )?
    );
    Ok(())
}

fn two(alloc: Global, first: u64, second: u64, valid: bool) -> Result<Elements, Fail> {
    let mut all = Vec::with_capacity(alloc, 2)?;
    all.push(element(alloc, first, "a:-:x", true)?)?;
    all.push(element(alloc, second, "a:x:y", valid)?)?;
    Ok(Elements::new(all))
}

fn two_refused(alloc: Global, first: u64, second: u64, valid: bool) -> Result<bool, Fail> {
    let elements = two(alloc, first, second, valid)?;
    Ok(unlinked(alloc, elements, 3, 2)? == Some(1))
}

fn two_linked(alloc: Global) -> Result<bool, Fail> {
    let elements = two(alloc, 1, 2, true)?;
    Ok(unlinked(alloc, elements, 3, 2)?.is_none())
}

#[test]
fn elements_that_are_linked_or_not(rt: HostRuntime) -> Result<(), Fail> {
    assert!(rt; two_linked(rt.alloc())?);
    assert!(rt; two_refused(rt.alloc(), 1, 1, true)?);
    assert!(rt; two_refused(rt.alloc(), 1, 2, false)?);
    Ok(())
}

fn none_refused(alloc: Global, next_id: u64, serial: u64) -> Result<bool, Fail> {
    let elements = Elements::new(Vec::new(alloc));
    Ok(unlinked(alloc, elements, next_id, serial)? == Some(0))
}

#[test]
fn numbers_past_their_bounds(rt: HostRuntime) -> Result<(), Fail> {
    assert!(rt; none_refused(rt.alloc(), 0, 0)?);
    assert!(rt; none_refused(rt.alloc(), 1, 1 << 30)?);
    Ok(())
}
