// Reads a script, a step a line, does each over a disk in memory, and prints what comes of it.
#![tactic(auto)]

mod deeds;
mod disks;
mod fields;
mod lab;
mod opening;
mod plain;
mod refused;
mod shown;
mod sim;
mod stage;
mod step;
mod steps;
mod told;

use crate::lab::Lab;
use std::io;
use std::process::ExitCode;

fn main(rt: HostRuntime) -> io::Result<ExitCode> {
    let alloc = rt.alloc();
    let mut lab = Lab::new(alloc);
    for line in rt.lines(alloc) {
        let mut out = String::new(alloc);
        let Ok(next) = lab.line(alloc, line?.as_str(), &mut out) else {
            eprintln!(rt; "no memory")?;
            return Ok(ExitCode::from(1));
        };
        lab = next;
        print!(rt; "{out}")?;
    }
    Ok(ExitCode::from(0))
}
