// Command lines that are drawn.
use crate::sim::dice::Dice;
use std::alloc::Global;
use wse_path::Memory;

/// One of the six paths. One of them may be a folder of two others.
pub fn path(dice: &mut Dice) -> &'static str {
    match dice.roll(6) {
        0 => "a",
        1 => "b",
        2 => "c",
        3 => "d",
        4 => "d/x",
        _ => "d/y",
    }
}

fn failure(dice: &mut Dice) -> &'static str {
    match dice.roll(4) {
        0 => "abort",
        1 => "transactional",
        2 => "textOnlyTransactional",
        _ => "undo",
    }
}

fn choice(dice: &mut Dice) -> &'static str {
    match dice.roll(4) {
        0 => "this",
        1 => "cancel",
        _ => "all",
    }
}

// One operation of an edit.
fn operation(alloc: Global, dice: &mut Dice) -> Result<String, Memory> {
    let path = path(dice);
    let digit = dice.roll(10);
    let text = match dice.roll(7) {
        0 => format!(in alloc; r#"{{"kind":"create","uri":"file:///w/{path}"}}"#)?,
        1 => format!(in alloc;
            r#"{{"kind":"create","options":{{"overwrite":true}},"uri":"file:///w/{path}"}}"#
        )?,
        2 => format!(in alloc;
            r#"{{"kind":"delete","options":{{"recursive":true}},"uri":"file:///w/{path}"}}"#
        )?,
        3 => renaming(alloc, path, dice)?,
        _ => format!(in alloc;
            r#"{{"edits":[{{"newText":"{digit}","range":{{"end":{{"character":1,"line":0}},"start":{{"character":0,"line":0}}}}}}],"textDocument":{{"uri":"file:///w/{path}","version":null}}}}"#
        )?,
    };
    Ok(text)
}

fn renaming(alloc: Global, old: &str, dice: &mut Dice) -> Result<String, Memory> {
    let new = path(dice);
    Ok(format!(in alloc;
        r#"{{"kind":"rename","newUri":"file:///w/{new}","oldUri":"file:///w/{old}","options":{{"overwrite":true}}}}"#
    )?)
}

fn operations(alloc: Global, dice: &mut Dice) -> Result<String, Memory> {
    let mut all = operation(alloc, dice)?;
    for _ in 0..dice.roll(2) {
        all.push(',')?;
        all.push_str(operation(alloc, dice)?.as_str())?;
    }
    Ok(all)
}

fn edit(alloc: Global, by: u64, dice: &mut Dice) -> Result<String, Memory> {
    let failure = failure(dice);
    let operations = operations(alloc, dice)?;
    Ok(format!(in alloc;
        r#"{{"by":{by},"do":"edit","edit":{{"documentChanges":[{operations}]}},"failure":"{failure}"}}"#
    )?)
}

fn step(alloc: Global, word: &str, by: u64, dice: &mut Dice) -> Result<String, Memory> {
    let path = path(dice);
    let choice = choice(dice);
    Ok(format!(in alloc;
        r#"{{"by":{by},"choice":"{choice}","do":"{word}","uri":"file:///w/{path}"}}"#
    )?)
}

fn hold(alloc: Global, word: &str, by: u64, dice: &mut Dice) -> Result<String, Memory> {
    let path = path(dice);
    Ok(format!(in alloc; r#"{{"by":{by},"do":"{word}","uris":["file:///w/{path}"]}}"#)?)
}

fn named(alloc: Global, word: &str, dice: &mut Dice) -> Result<String, Memory> {
    let path = path(dice);
    Ok(format!(in alloc; r#"{{"do":"{word}","uri":"file:///w/{path}"}}"#)?)
}

fn outside(alloc: Global, dice: &mut Dice) -> Result<String, Memory> {
    let path = path(dice);
    let text = if dice.roll(3) == 0 { "null" } else { r#""o""# };
    Ok(format!(in alloc; r#"{{"do":"outside","text":{text},"uri":"file:///w/{path}"}}"#)?)
}

// A line that makes no element.
fn other(alloc: Global, by: u64, dice: &mut Dice) -> Result<String, Memory> {
    match dice.roll(7) {
        0 | 1 => hold(alloc, "lock", by, dice),
        2 => hold(alloc, "unlock", by, dice),
        3 => Ok(format!(in alloc; r#"{{"by":{by},"do":"leave"}}"#)?),
        4 => named(alloc, "forget", dice),
        5 => named(alloc, "look", dice),
        _ => outside(alloc, dice),
    }
}

/// A command line by one of three participants.
pub fn line(alloc: Global, dice: &mut Dice) -> Result<String, Memory> {
    let by = dice.roll(3);
    match dice.roll(10) {
        0 | 1 | 2 | 3 => edit(alloc, by, dice),
        4 | 5 | 6 => step(alloc, "undo", by, dice),
        7 => step(alloc, "redo", by, dice),
        _ => other(alloc, by, dice),
    }
}
