// Steps as lines say them.
use crate::fields::{
    area_in, bytes_in, is_set, limits_in, number_in, number_or, numbers_in, optional, path_of,
    text_in, texts_in, tree_in,
};
use crate::refused::Refused;
use crate::step::{Deed, Run, Step};
use serde_json::Value;
use std::alloc::Global;
use wse_path::Bytes;

fn crash(value: &Value) -> Result<Step, Refused> {
    let moment = match optional(value, "moment") {
        Some(_) => Some(number_in(value, "moment")?),
        None => None,
    };
    Ok(Step::Crash {
        moment,
        choice: number_or(value, "choice", 0)?,
    })
}

fn put(alloc: Global, value: &Value) -> Result<Deed, Refused> {
    let path = path_of(alloc, text_in(value, "path")?)?;
    let is_there = optional(value, "text").is_some() || optional(value, "hex").is_some();
    let content = if is_there {
        Some(Bytes::new(bytes_in(alloc, value)?))
    } else {
        None
    };
    Ok(Deed::Put { path, content })
}

fn patch(alloc: Global, value: &Value) -> Result<Deed, Refused> {
    Ok(Deed::Patch {
        area: area_in(value)?,
        at: number_in(value, "at")?,
        bytes: bytes_in(alloc, value)?,
    })
}

fn run(alloc: Global, value: &Value) -> Result<Deed, Refused> {
    let chunk = number_or(value, "chunk", 65_536)?;
    Ok(Deed::Run(Run {
        adopt: is_set(value, "adopt"),
        text: bytes_in(alloc, value)?,
        chunk: chunk.max(1).min(65_536) as usize,
        max_input: number_or(value, "max_input", 1_000_000)?,
        reads: numbers_in(alloc, value, "reads")?,
        emits: numbers_in(alloc, value, "emits")?,
    }))
}

fn tree(alloc: Global, value: &Value) -> Result<Step, Refused> {
    Ok(Step::Tree {
        tree: tree_in(alloc, value)?,
        limits: limits_in(value)?,
    })
}

fn try_lines(alloc: Global, value: &Value) -> Result<Step, Refused> {
    Ok(Step::Try {
        tree: tree_in(alloc, value)?,
        lines: texts_in(alloc, value, "lines")?,
    })
}

fn sim(value: &Value) -> Result<Step, Refused> {
    Ok(Step::Sim {
        seed: number_in(value, "seed")?,
        count: number_in(value, "count")?,
    })
}

fn fail(alloc: Global, value: &Value) -> Result<Step, Refused> {
    Ok(Step::Fail {
        numbers: numbers_in(alloc, value, "numbers")?,
    })
}

// What is done with the disk or the store.
fn deed(alloc: Global, name: &str, value: &Value) -> Result<Deed, Refused> {
    match name {
        "init" => Ok(Deed::Init),
        "start" => Ok(Deed::Start {
            adopt: is_set(value, "adopt"),
        }),
        "serve" => Ok(Deed::Serve {
            line: bytes_in(alloc, value)?,
        }),
        "run" => run(alloc, value),
        "stop" => Ok(Deed::Stop),
        "show" => Ok(Deed::Show),
        "bytes" => Ok(Deed::Bytes {
            area: area_in(value)?,
        }),
        "patch" => patch(alloc, value),
        "put" => put(alloc, value),
        _ => Err(Refused::NoStep),
    }
}

fn named(alloc: Global, name: &str, value: &Value) -> Result<Step, Refused> {
    match name {
        "tree" => tree(alloc, value),
        "fail" => fail(alloc, value),
        "crash" => crash(value),
        "calls" => Ok(Step::Calls),
        "try" => try_lines(alloc, value),
        "sim" => sim(value),
        _ => Ok(Step::Do(deed(alloc, name, value)?)),
    }
}

/// The step that a line says: the one that its member `step` names, or where it has a member `do` the command that it is.
pub fn step_of(alloc: Global, line: &str) -> Result<Step, Refused> {
    let Ok(value) = Value::from_str(alloc, line) else {
        return Err(Refused::NotJson);
    };
    if value.get("do").is_some() {
        let line = line.as_bytes().to_vec(alloc)?;
        return Ok(Step::Do(Deed::Serve { line }));
    }
    named(alloc, text_in(&value, "step")?, &value)
}
