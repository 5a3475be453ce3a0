// What the program prints.
use crate::counts::Counts;
use crate::rows::RowTold;
use crate::walk::Found;
use std::io;
use wse_path::Bytes;

fn tell_counts(rt: &HostRuntime, counts: &Counts) -> io::Result<()> {
    let mut length: usize = 0;
    for count in &counts.lengths {
        length = length.saturating_add(1);
        let sequences = count.sequences;
        let recorded = count.recorded;
        println!(rt;
            "length {length}: {sequences} sequences, {recorded} of them end with a command that is recorded"
        )?;
    }
    Ok(())
}

/// The places of the commands, counted from 1.
fn tell_sequence(rt: &HostRuntime, sequence: &[usize]) -> io::Result<()> {
    for place in sequence {
        let number = place.saturating_add(1);
        println!(rt; "command {number}")?;
    }
    Ok(())
}

/// The answer, which ends its line.
fn tell_answer(rt: &HostRuntime, answer: &Bytes) -> io::Result<()> {
    match std::str::from_utf8(answer.as_slice()) {
        Ok(text) => print!(rt; "{text}"),
        Err(_) => println!(rt; "no text"),
    }
}

/// Prints the counts, and the first difference.
pub fn tell(rt: &HostRuntime, counts: &Counts, found: &Found) -> io::Result<()> {
    tell_counts(rt, counts)?;
    match found {
        Found::None => println!(rt; "no difference"),
        Found::Answers {
            sequence,
            kept,
            slow,
        } => {
            tell_sequence(rt, sequence.as_slice())?;
            tell_answer(rt, kept)?;
            tell_answer(rt, slow)
        }
        Found::States { sequence } => {
            tell_sequence(rt, sequence.as_slice())?;
            println!(rt; "the states differ")
        }
    }
}

/// Prints the row's name, its answers, and whether there is a difference.
pub fn tell_row(rt: &HostRuntime, name: &str, told: &RowTold) -> io::Result<()> {
    println!(rt; "{name}")?;
    for answer in &told.answers {
        tell_answer(rt, answer)?;
    }
    if told.same {
        println!(rt; "no difference")
    } else {
        println!(rt; "a difference")
    }
}
