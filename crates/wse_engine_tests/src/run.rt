// Commands, one after the other.
use crate::given::{commands_of, engine};
use std::alloc::Global;
use std::test::Fail;
use wse_disk::MemDisk;
use wse_engine::ExecFault;

/// How a run ended, and the disk.
#[derive(Drop)]
pub struct Ended {
    /// `done`, `memory` or `disk`.
    pub how: &'static str,
    pub disk: MemDisk,
}

/// Does the commands, cut at `|`, over an empty store, whose disk's calls with these numbers fail.
pub fn run(alloc: Global, commands: &str, fails: Vec<u64>) -> Result<Ended, Fail> {
    let commands = commands_of(alloc, commands)?;
    let mut engine = engine(alloc, fails)?;
    for command in &commands {
        engine = match engine.exec(alloc, command) {
            Ok((next, _)) => next,
            Err(ExecFault::Memory(same)) => return stopped("memory", same.into_disk().disk),
            Err(ExecFault::Disk(disk)) => return stopped("disk", disk.disk),
        };
    }
    stopped("done", engine.into_disk().disk)
}

fn stopped(how: &'static str, disk: MemDisk) -> Result<Ended, Fail> {
    Ok(Ended { how, disk })
}
