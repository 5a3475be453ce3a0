use crate::make::{is_content, live, path, single};
use std::alloc::Global;
use std::test::Fail;
use wse_element::{Effect, Effects, Element, PartState, Plan};
use wse_path::{Changes, Duplicate};

fn is_named(element: &Element, label: &str) -> bool {
    element.label().as_str() == label && element.is_done() && element.id() == 1
}

fn has_equal_element(alloc: Global, label: &str, is: &str) -> Result<bool, Fail> {
    let part = live(alloc, "a", "-", is)?;
    let copy = single(alloc, label, part)?.duplicate(alloc)?;
    match copy.parts() {
        [part] => Ok(is_named(&copy, label) && is_content(&part.new_bytes(alloc)?, is)),
        _ => Ok(false),
    }
}

fn pushed(alloc: Global) -> Result<Effect, Fail> {
    let part = live(alloc, "a", "-", "x")?;
    Ok(Effect::Push(single(alloc, "", part)?))
}

fn has_equal_push(alloc: Global) -> Result<bool, Fail> {
    match pushed(alloc)?.duplicate(alloc)? {
        Effect::Push(element) => Ok(is_named(&element, "")),
        _ => Ok(false),
    }
}

fn has_equal_numbers(alloc: Global) -> Result<bool, Fail> {
    let back = Effect::MoveBack { id: 7 };
    let split = Effect::Split { id: 7, first: 9 };
    match (back.duplicate(alloc)?, split.duplicate(alloc)?) {
        (Effect::MoveBack { id }, Effect::Split { id: whole, first }) => {
            Ok(id == 7 && whole == 7 && first == 9)
        }
        _ => Ok(false),
    }
}

fn has_equal_drop(alloc: Global) -> Result<bool, Fail> {
    let drop = Effect::Drop {
        path: path(alloc, "a")?,
        reason: PartState::Closed,
    };
    match drop.duplicate(alloc)? {
        Effect::Drop { path: copy, reason } => {
            Ok(copy == path(alloc, "a")? && reason == PartState::Closed)
        }
        _ => Ok(false),
    }
}

fn has_equal_plan(alloc: Global) -> Result<bool, Fail> {
    let mut all = Vec::new(alloc);
    all.push(pushed(alloc)?)?;
    let plan = Plan {
        effects: Effects::new(all),
        changes: Changes::new(Vec::new(alloc)),
    };
    let copy = plan.duplicate(alloc)?;
    Ok(copy.effects.len() == 1 && copy.changes.is_empty())
}

#[test]
fn copies_of_elements_and_plans_are_equal(rt: HostRuntime) -> Result<(), Fail> {
    let alloc = rt.alloc();
    assert!(rt; has_equal_element(alloc, "", "x")?);
    assert!(rt; has_equal_element(alloc, "label", "")?);
    assert!(rt; has_equal_plan(alloc)?);
    Ok(())
}

#[test]
fn copies_of_effects_are_equal(rt: HostRuntime) -> Result<(), Fail> {
    let alloc = rt.alloc();
    assert!(rt; has_equal_push(alloc)?);
    assert!(rt; has_equal_numbers(alloc)?);
    assert!(rt; has_equal_drop(alloc)?);
    Ok(())
}
