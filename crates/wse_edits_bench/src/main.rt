// Resolves edits of one shape again and again, so that a clock can be held to it.
#![tactic(auto)]

use std::alloc::Global;
use std::process::ExitCode;
use std::rt::Env;
use std::{env, io};
use wse_edits::{EditsRefused, resolve};
use wse_path::{Encoding, Memory, Position, Text, TextEdit};

/// Which edits of which text.
#[derive(Clone, Copy)]
enum Shape {
    /// One line of many words, of which each is replaced.
    LongLine,
    /// A range on each of many lines, and at last one that overlaps the range before it.
    LateOverlap,
}

/// A word on the long line.
const WORD: &str = "renamed_identifier, ";

/// How many characters of it are replaced.
const REPLACED: u64 = 7;

/// A line of the many.
const LINE: &str = "abcd\n";

#[derive(Drop)]
struct Work {
    shape: Shape,
    /// How many edits there are.
    count: usize,
    /// How often they are resolved.
    times: usize,
}

/// The words SHAPE COUNT TIMES behind the program's name.
fn told(rt: &(impl Env + AllocGlobal)) -> Option<Work> {
    let mut words = env::args(rt).ok()?;
    let _program = words.next()?;
    let shape = match words.next()?.as_str() {
        "line" => Shape::LongLine,
        "overlap" => Shape::LateOverlap,
        _ => return None,
    };
    let count = words.next()?.as_str().parse::<usize>().ok()?;
    let times = words.next()?.as_str().parse::<usize>().ok()?;
    Some(Work {
        shape,
        count,
        times,
    })
}

fn text_of(alloc: Global, shape: Shape, count: usize) -> Result<String, Memory> {
    let piece = match shape {
        Shape::LongLine => WORD,
        Shape::LateOverlap => LINE,
    };
    let mut text = String::new(alloc);
    for _ in 0..count {
        text.push_str(piece)?;
    }
    Ok(text)
}

fn edit(alloc: Global, line: u64, start: u64, end: u64) -> Result<TextEdit, Memory> {
    let new_text = Text::new(String::from_str(alloc, "new")?);
    Ok(TextEdit {
        start: Position {
            line,
            character: start,
        },
        end: Position {
            line,
            character: end,
        },
        new_text,
        skipped: false,
    })
}

/// The edit with that number.
fn edit_at(alloc: Global, shape: Shape, count: usize, number: usize) -> Result<TextEdit, Memory> {
    let place = number as u64;
    match shape {
        Shape::LongLine => {
            let start = place.saturating_mul(WORD.len() as u64);
            edit(alloc, 0, start, start.saturating_add(REPLACED))
        }
        Shape::LateOverlap if number == count.saturating_sub(1) => edit(
            alloc,
            place.saturating_sub(1),
            1,
            3,
        ),
        Shape::LateOverlap => edit(alloc, place, 0, 2),
    }
}

fn edits_of(alloc: Global, shape: Shape, count: usize) -> Result<Vec<TextEdit>, Memory> {
    let mut edits = Vec::new(alloc);
    for number in 0..count {
        edits.push(edit_at(alloc, shape, count, number)?)?;
    }
    Ok(edits)
}

/// How many splices the edits are at the last time, 0 where there is none.
fn resolve_often(alloc: Global, work: &Work) -> Result<usize, EditsRefused> {
    let text = text_of(alloc, work.shape, work.count)?;
    let edits = edits_of(alloc, work.shape, work.count)?;
    let mut refused = Ok(0);
    for _ in 0..work.times {
        refused = match resolve(alloc, text.as_str(), Encoding::Utf16, &edits) {
            Ok(splices) => Ok(splices.len()),
            Err(why) => Err(why),
        };
    }
    refused
}

fn main(rt: HostRuntime) -> io::Result<ExitCode> {
    let Some(work) = told(&rt) else {
        eprintln!(rt; "usage: line COUNT TIMES, or overlap COUNT TIMES")?;
        return Ok(ExitCode::from(2));
    };
    match resolve_often(rt.alloc(), &work) {
        Ok(count) => println!(rt; "{count} splices")?,
        Err(EditsRefused::Overlap { first, second }) => {
            println!(rt; "edits {first} and {second} overlap")?;
        }
        Err(_) => return Ok(ExitCode::from(1)),
    }
    Ok(ExitCode::from(0))
}
