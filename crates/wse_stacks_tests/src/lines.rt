// Scenarios: lines that change the stacks, or say what they tell.
use crate::effects::effects;
use crate::given::{number, path};
use crate::sets::sets;
use std::alloc::Global;
use std::test::Fail;
use wse_element::{Effect, Effects, Elements, PartState};
use wse_path::Files;
use wse_stacks::{ReserveRefused, Stacks, StacksRefused};

/// Stacks without elements.
pub fn empty(alloc: Global) -> Result<Stacks, Fail> {
    match Stacks::from_elements(alloc, Elements::new(Vec::new(alloc)), 1, 0) {
        Ok(stacks) => Ok(stacks),
        Err(_) => Err(Fail::new("no stacks")),
    }
}

/// Prepares the effects and does them. The place of the first that isn't applicable, or None.
pub fn refusal(
    stacks: &mut Stacks,
    alloc: Global,
    list: Vec<Effect>,
) -> Result<Option<usize>, Fail> {
    if list.is_empty() {
        return Err(Fail::new("no effects"));
    }
    match stacks.reserve(alloc, list.as_slice()) {
        Ok(()) => {
            stacks.apply(Effects::new(list));
            Ok(None)
        }
        Err(ReserveRefused::NotApplicable { index }) => Ok(Some(index)),
        Err(ReserveRefused::Memory) => Err(Fail::new("no memory")),
    }
}

fn is_done(stacks: &mut Stacks, alloc: Global, text: &str) -> Result<bool, Fail> {
    let list = effects(alloc, text)?;
    Ok(refusal(stacks, alloc, list)?.is_none())
}

// An index, a space, and effects.
fn is_refused(stacks: &mut Stacks, alloc: Global, text: &str) -> Result<bool, Fail> {
    let Some((at, text)) = text.split_once(' ') else {
        return Ok(false);
    };
    let list = effects(alloc, text)?;
    match refusal(stacks, alloc, list)? {
        Some(index) => Ok(index as u64 == number(at)),
        None => Ok(false),
    }
}

fn is_id(found: Option<u64>, id: u64) -> bool {
    match found {
        Some(found) => found == id,
        None => id == 0,
    }
}

fn is_past(stacks: &Stacks, alloc: Global, text: &str) -> Result<bool, Fail> {
    match text.split_once(' ') {
        Some((file, id)) => Ok(is_id(stacks.closest_past(&path(alloc, file)?), number(id))),
        None => Ok(false),
    }
}

fn is_future(stacks: &Stacks, alloc: Global, text: &str) -> Result<bool, Fail> {
    match text.split_once(' ') {
        Some((file, id)) => Ok(is_id(stacks.closest_future(&path(alloc, file)?), number(id))),
        None => Ok(false),
    }
}

fn has_turned(stacks: &Stacks, alloc: Global, text: &str) -> Result<bool, Fail> {
    match text.split_once(' ') {
        Some((file, turns)) => Ok(stacks.turns(&path(alloc, file)?) == number(turns)),
        None => Ok(false),
    }
}

// The ids in order, each with a space behind it.
fn has_ids(stacks: &Stacks, text: &str) -> bool {
    let mut at = 0;
    for id in text.split(' ') {
        match stacks.element_at(at) {
            Some(element) => {
                if element.id() != number(id) || stacks.element(element.id()).is_none() {
                    return false;
                }
            }
            None => return false,
        }
        at = at.wrapping_add(1);
    }
    at == stacks.count()
}

fn are_paths(files: &Files, alloc: Global, text: &str) -> Result<bool, Fail> {
    let mut at = 0;
    for file in text.split(' ') {
        match files.as_slice().get(at) {
            Some(path_there) => {
                if *path_there != path(alloc, file)? {
                    return Ok(false);
                }
            }
            None => return Ok(false),
        }
        at = at.wrapping_add(1);
    }
    Ok(at == files.len())
}

fn has_paths(stacks: &Stacks, alloc: Global, text: &str) -> Result<bool, Fail> {
    let files = stacks.paths(alloc)?;
    are_paths(&files, alloc, text)
}

// What all will count for where the path's history is closed.
fn is_left(stacks: &Stacks, alloc: Global, text: &str) -> Result<bool, Fail> {
    match text.split_once(' ') {
        Some((file, weight)) => {
            let effects = [Effect::Drop {
                path: path(alloc, file)?,
                reason: PartState::Closed,
            }];
            Ok(stacks.weight_after(alloc, &effects)? == number(weight))
        }
        None => Ok(false),
    }
}

fn line_holds(stacks: &mut Stacks, alloc: Global, line: &str) -> Result<bool, Fail> {
    let Some((word, rest)) = line.split_once(' ') else {
        return Ok(false);
    };
    match word {
        "do" => is_done(stacks, alloc, rest),
        "no" => is_refused(stacks, alloc, rest),
        "past" => is_past(stacks, alloc, rest),
        "future" => is_future(stacks, alloc, rest),
        "turns" => has_turned(stacks, alloc, rest),
        "ids" => Ok(has_ids(stacks, rest)),
        "paths" => has_paths(stacks, alloc, rest),
        "sets" => sets(stacks, alloc, rest),
        "next" => Ok(stacks.next_id() == number(rest)),
        "serial" => Ok(stacks.serial() == number(rest)),
        "weight" => Ok(stacks.weight() == number(rest)),
        "left" => is_left(stacks, alloc, rest),
        "count" => Ok(stacks.count() as u64 == number(rest)),
        _ => Ok(false),
    }
}

/// Whether each line of the scenario holds, from empty stacks on.
pub fn holds(alloc: Global, scenario: &str) -> Result<bool, Fail> {
    let mut stacks = empty(alloc)?;
    for line in scenario.split('\n') {
        if !line_holds(&mut stacks, alloc, line.trim())? {
            return Ok(false);
        }
    }
    Ok(true)
}

/// The index of the first element that isn't linked, where there is one.
pub fn unlinked(
    alloc: Global,
    elements: Elements,
    next_id: u64,
    serial: u64,
) -> Result<Option<usize>, Fail> {
    match Stacks::from_elements(alloc, elements, next_id, serial) {
        Ok(_) => Ok(None),
        Err(StacksRefused::NotLinked { index }) => Ok(Some(index)),
        Err(StacksRefused::Memory) => Err(Fail::new("no memory")),
    }
}
