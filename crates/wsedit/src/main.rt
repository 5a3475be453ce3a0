// A workspace edit engine: lines of JSON come in, answers go out, and a folder tree is changed.
#![tactic(auto)]

mod end;
mod making;
mod program;
mod running;
mod showing;
mod status;
mod telling;
mod words;

use crate::end::{end_without_words, exit_code};
use crate::words::behind_first;
pub use program::{Ended, run, run_within};
use std::env;
use std::io::{ErrorKind, Read, Write};
use std::process::ExitCode;
use std::rt::Env;
use wse_dir::DirDisk;
use wse_disk::Place;
use wse_io::{ReaderSource, WriterSink};
use wse_path::Memory;

/// The words after the program's name. Where one isn't UTF-8 there are none, so that they aren't understood.
fn program_words(rt: &(impl Env + AllocGlobal)) -> Result<Vec<String>, Memory> {
    match env::args(rt) {
        Ok(all) => behind_first(rt.alloc(), all),
        Err(error) if error.kind() == ErrorKind::OutOfMemory => Err(Memory),
        Err(_) => Ok(Vec::new(rt.alloc())),
    }
}

/// Runs over this disk and these streams. The program ends with the status of its run.
fn start<D: Place + Drop, I: Read + Drop, O: Write + Drop, E: Write + Drop>(
    rt: &(impl Env + AllocGlobal),
    disk: D,
    input: I,
    output: O,
    errors: E,
) -> ExitCode {
    let alloc = rt.alloc();
    let mut source = ReaderSource::new(input);
    let mut out = WriterSink::new(output);
    let mut errs = WriterSink::new(errors);
    let ended = match program_words(rt) {
        Ok(words) => run(alloc, &words, &mut source, &mut out, &mut errs, disk),
        Err(Memory) => end_without_words(&mut errs, disk),
    };
    exit_code(&ended)
}

/// Runs over real folders, and over standard input, output and error.
fn main(rt: HostRuntime) -> ExitCode {
    let disk = DirDisk::new(rt);
    start(&rt, disk, rt.stdin(), rt.stdout(), rt.stderr())
}

#[cfg(test)]
mod tests;
