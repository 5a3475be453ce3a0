// Does commands over a disk in memory, counts the calls of the disk that the last one takes, and repeats them, so that a clock
// can be held to it.
#![tactic(auto)]

mod commands;
mod run;
mod work;

use crate::run::{Ended, run};
use crate::work::told;
use std::process::ExitCode;
use std::rt::Env;
use std::{env, io};

fn main(rt: HostRuntime) -> io::Result<ExitCode> {
    let Some(work) = told(&rt) else {
        eprintln!(rt; "usage: edit|undo|redo|flush|lock FILES-IN-TREE ELEMENTS FILES TIMES")?;
        return Ok(ExitCode::from(2));
    };
    match run(rt.alloc(), &work) {
        Ok(Ended::Done { calls }) => println!(rt; "{calls} calls")?,
        Ok(Ended::Memory { calls }) => println!(rt; "no memory, after {calls} calls")?,
        Ok(Ended::Disk) => println!(rt; "a fault of the disk")?,
        Err(_) => return Ok(ExitCode::from(1)),
    }
    Ok(ExitCode::from(0))
}
