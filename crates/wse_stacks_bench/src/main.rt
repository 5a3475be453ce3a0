// Does the same commands to stacks again and again, so that a clock can be held to it.
#![tactic(auto)]

mod command;
mod failed;
mod made;
mod work;

use crate::command::run;
use crate::work::{Work, told};
use std::process::ExitCode;
use std::rt::Env;
use std::{env, io};

fn main(rt: HostRuntime) -> io::Result<ExitCode> {
    let Some(work) = told(&rt) else {
        eprintln!(rt; "usage: edit|undo|split|drop|flush|bump|weigh|link ELEMENTS PARTS TIMES")?;
        return Ok(ExitCode::from(2));
    };
    match run(rt.alloc(), &work) {
        Ok(count) => println!(rt; "{count} elements")?,
        Err(_) => return Ok(ExitCode::from(1)),
    }
    Ok(ExitCode::from(0))
}
