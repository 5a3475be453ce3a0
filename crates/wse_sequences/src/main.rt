// All sequences of commands from a table, each through the history that is kept and through its plain slow twin. Words: how
// many commands a sequence has at most. Standard input: lines of the command language that come first, an empty line, those of
// the table, and rows: each begins with a line `# NAME`, which may name limits, as `files=1`, and goes on with its commands.
// Prints how many sequences there are of each length, and the first at which the two differ; then each row's answers.
#![tactic(auto)]

mod counts;
mod kept;
mod limits;
mod rows;
mod same;
mod slow;
mod table;
mod told;
mod walk;

use crate::counts::Counts;
use crate::rows::run_row;
use crate::table::{Row, Table, TableRefused, read_table};
use crate::told::{tell, tell_row};
use crate::walk::walk;
use std::io::Read;
use std::process::ExitCode;
use std::rt::Env;
use std::{env, io};

/// The word behind the program's name.
fn length_told(rt: &(impl Env + AllocGlobal)) -> Option<usize> {
    let mut words = env::args(rt).ok()?;
    let _program = words.next()?;
    words.next()?.as_str().parse().ok()
}

/// Tells of all sequences.
fn run_sequences(rt: &HostRuntime, table: &Table, most: usize) -> io::Result<()> {
    let alloc = rt.alloc();
    let Ok(mut counts) = Counts::new(alloc, most) else {
        return println!(rt; "no memory");
    };
    match walk(alloc, table, most, &mut counts) {
        Ok(found) => tell(rt, &counts, &found),
        Err(_) => println!(rt; "no memory"),
    }
}

fn run_rows(rt: &HostRuntime, rows: &[Row]) -> io::Result<()> {
    for row in rows {
        match run_row(rt.alloc(), row) {
            Ok(told) => tell_row(rt, row.name.as_str(), &told)?,
            Err(_) => println!(rt; "no history")?,
        }
    }
    Ok(())
}

fn main(rt: HostRuntime) -> io::Result<ExitCode> {
    let alloc = rt.alloc();
    let Some(most) = length_told(&rt) else {
        eprintln!(rt; "usage: wse_sequences LENGTH")?;
        return Ok(ExitCode::from(2));
    };
    let mut lines = Vec::new(alloc);
    rt.stdin().read_to_end(&mut lines)?;
    let table = match read_table(alloc, lines.as_slice()) {
        Ok(table) => table,
        Err(TableRefused::Line { number }) => {
            eprintln!(rt; "line {number} is no command")?;
            return Ok(ExitCode::from(2));
        }
        Err(TableRefused::Memory) => return Ok(ExitCode::from(1)),
    };
    run_sequences(&rt, &table, most)?;
    run_rows(&rt, table.rows.as_slice())?;
    Ok(ExitCode::from(0))
}
