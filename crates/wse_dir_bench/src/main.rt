// Does to real folders what a journal and its commands do, so that flushes can be counted and a clock can be held to it.
#![tactic(auto)]

mod work;

use crate::work::work;
use std::process::ExitCode;
use std::rt::Env;
use std::{env, io};
use wse_dir::DirDisk;

/// The number FILES behind the program's name.
fn told(rt: &(impl Env + AllocGlobal)) -> Option<u32> {
    let mut words = env::args(rt).ok()?;
    let _program = words.next()?;
    words.next()?.as_str().parse::<u32>().ok()
}

fn main(rt: HostRuntime) -> io::Result<ExitCode> {
    let Some(files) = told(&rt) else {
        eprintln!(rt; "usage: wse_dir_bench FILES")?;
        return Ok(ExitCode::from(2));
    };
    let mut disk = DirDisk::new(rt);
    match work(rt.alloc(), &mut disk, files) {
        Ok((made, renamed)) => {
            println!(rt; "{files} files made: {made} flushes")?;
            println!(rt; "{files} files renamed and edited: {renamed} flushes")?;
            Ok(ExitCode::from(0))
        }
        Err(_) => Ok(ExitCode::from(1)),
    }
}
