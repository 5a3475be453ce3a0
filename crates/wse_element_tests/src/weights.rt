use crate::make::{closed, live, pair, single};
use std::alloc::Global;
use std::test::Fail;

fn weighs(alloc: Global, label: &str, was: &str, is: &str) -> Result<u64, Fail> {
    let part = live(alloc, "a", was, is)?;
    Ok(single(alloc, label, part)?.weight())
}

fn pair_weighs(alloc: Global) -> Result<u64, Fail> {
    let first = live(alloc, "a/b", "-", "x")?;
    let second = closed(alloc, "b")?;
    Ok(pair(alloc, first, second)?.weight())
}

#[test]
fn an_element_weighs_its_labels_paths_and_contents(rt: HostRuntime) -> Result<(), Fail> {
    let alloc = rt.alloc();
    assert!(rt; weighs(alloc, "", "-", "")? == 257);
    assert!(rt; weighs(alloc, "ab", "cde", "")? == 262);
    assert!(rt; pair_weighs(alloc)? == 517);
    Ok(())
}
