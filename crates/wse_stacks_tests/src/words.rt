// Refusals in words.
use std::test::Fail;
use wse_stacks::{ReserveRefused, StacksRefused};

#[test]
fn elements_that_are_not_linked_are_told(rt: HostRuntime) -> Result<(), Fail> {
    let told = StacksRefused::NotLinked { index: 3 }.to_string(rt.alloc())?;
    assert!(rt; told.as_str() == "not linked at element 3");
    Ok(())
}

#[test]
fn an_effect_that_is_not_applicable_is_told(rt: HostRuntime) -> Result<(), Fail> {
    let told = ReserveRefused::NotApplicable { index: 2 }.to_string(rt.alloc())?;
    assert!(rt; told.as_str() == "effect 2 is not applicable");
    Ok(())
}
