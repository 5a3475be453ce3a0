// Effects from text.
use crate::given::{element, number, path};
use std::alloc::Global;
use std::test::Fail;
use wse_element::{Effect, PartState};

fn push(alloc: Global, rest: &str) -> Result<Effect, Fail> {
    let Some((id, parts)) = rest.split_once(' ') else {
        return Err(Fail::new("no push"));
    };
    Ok(Effect::Push(element(alloc, number(id), parts, true)?))
}

fn split(rest: &str) -> Result<Effect, Fail> {
    let Some((id, first)) = rest.split_once(' ') else {
        return Err(Fail::new("no split"));
    };
    Ok(Effect::Split {
        id: number(id),
        first: number(first),
    })
}

fn lost(alloc: Global, file: &str, reason: PartState) -> Result<Effect, Fail> {
    Ok(Effect::Drop {
        path: path(alloc, file)?,
        reason,
    })
}

fn bump(alloc: Global, file: &str) -> Result<Effect, Fail> {
    Ok(Effect::Bump {
        path: path(alloc, file)?,
        by: 1,
    })
}

fn set(alloc: Global, file: &str) -> Result<Effect, Fail> {
    Ok(Effect::Set {
        path: path(alloc, file)?,
        content: None,
    })
}

/// One effect: a word, a space, and what it speaks of.
fn effect(alloc: Global, text: &str) -> Result<Effect, Fail> {
    let Some((word, rest)) = text.split_once(' ') else {
        return Err(Fail::new("no effect"));
    };
    match word {
        "push" => push(alloc, rest),
        "back" => Ok(Effect::MoveBack { id: number(rest) }),
        "forward" => Ok(Effect::MoveForward { id: number(rest) }),
        "split" => split(rest),
        "close" => lost(alloc, rest, PartState::Closed),
        "drop" => lost(alloc, rest, PartState::Incompatible),
        "invalid" => Ok(Effect::Invalidate {
            path: path(alloc, rest)?,
        }),
        "bump" => bump(alloc, rest),
        "set" => set(alloc, rest),
        _ => Err(Fail::new("no such effect")),
    }
}

/// Effects, cut at semicolons.
pub fn effects(alloc: Global, text: &str) -> Result<Vec<Effect>, Fail> {
    let mut all = Vec::new(alloc);
    for item in text.split(';') {
        all.push(effect(alloc, item)?)?;
    }
    Ok(all)
}
