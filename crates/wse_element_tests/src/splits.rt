use crate::make::{closed, live, pair, path};
use std::alloc::Global;
use std::test::Fail;
use wse_element::{Element, Elements};

fn split_at_3(alloc: Global, element: &Element) -> Result<Elements, Fail> {
    if !element.splits() || element.parts().len() != 2 {
        return Err(Fail::new("can't be split"));
    }
    Ok(element.split(alloc, 3)?)
}

// The id, the origin and the only path.
fn is_piece(alloc: Global, element: &Element, id: u64, file: &str) -> Result<bool, Fail> {
    let file = path(alloc, file)?;
    Ok(match element.parts() {
        [part] => element.id() == id && element.origin() == 1 && *part.path() == file,
        _ => false,
    })
}

fn splits_into_two(alloc: Global) -> Result<bool, Fail> {
    let first = live(alloc, "a", "-", "x")?;
    let second = live(alloc, "b", "y", "-")?;
    let elements = split_at_3(alloc, &pair(alloc, first, second)?)?;
    match elements.as_slice() {
        [one, other] => Ok(is_piece(alloc, one, 3, "a")? && is_piece(alloc, other, 4, "b")?),
        _ => Ok(false),
    }
}

fn splits_into_one(alloc: Global) -> Result<bool, Fail> {
    let first = closed(alloc, "a")?;
    let second = live(alloc, "b", "y", "-")?;
    let elements = split_at_3(alloc, &pair(alloc, first, second)?)?;
    match elements.as_slice() {
        [only] => is_piece(alloc, only, 3, "b"),
        _ => Ok(false),
    }
}

#[test]
fn a_split_makes_one_element_for_each_live_part(rt: HostRuntime) -> Result<(), Fail> {
    assert!(rt; splits_into_two(rt.alloc())?);
    assert!(rt; splits_into_one(rt.alloc())?);
    Ok(())
}
