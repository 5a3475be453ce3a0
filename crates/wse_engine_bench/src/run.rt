// The engine, and the commands one after the other.
use crate::commands::commands;
use crate::work::Work;
use std::alloc::Global;
use wse_apply::{are_within_standard, limit_hit};
use wse_disk::{Area, Disk, MemDisk};
use wse_element::Elements;
use wse_engine::{Engine, ExecFault};
use wse_history::History;
use wse_path::{Limits, Memory, Tree, Versions};
use wse_quiet_disk::QuietDisk;
use wse_stacks::Stacks;
use wse_txn::Idle;

/// How a run ended, with how many calls of the disk the last command made.
#[derive(Drop)]
pub enum Ended {
    Done { calls: u64 },
    Memory { calls: u64 },
    Disk,
}

// A journal of one record: the state of a store over an empty tree. Its closed gate is the last byte.
const JOURNAL: [u8; 40] = [
    0x57, 0x53, 0x45, 0x4c, 0x4f, 0x47, 0x30, 0x31, 0xa5, 0, 0, 0, 0x19, 0, 0, 0, 0, 0, 0, 0, 0, 0,
    0, 0, 0, 0, 0, 0, 0, 1, 0, 0, 0, 0, 0, 0, 0, 0, 0x5a, 0,
];

fn history(alloc: Global) -> Result<History, Memory> {
    let Ok(stacks) = Stacks::from_elements(alloc, Elements::new(Vec::new(alloc)), 1, 0) else {
        return Err(Memory);
    };
    let limits = Limits::standard();
    let tree = Tree::new(alloc);
    if !are_within_standard(&limits) {
        return Err(Memory);
    }
    match limit_hit(&limits, &tree) {
        Some(_) => Err(Memory),
        None => Ok(History::new(alloc, stacks, Versions::new(alloc), tree, limits)),
    }
}

fn engine(alloc: Global) -> Result<Engine<QuietDisk>, Memory> {
    let history = history(alloc)?;
    let mut disk = QuietDisk::new(MemDisk::new(alloc, Tree::new(alloc), Vec::new(alloc)));
    let _ = disk.area_write(Area::LogA, 0, &JOURNAL);
    let _ = disk.sync();
    Ok(Engine::of(Idle::at(disk, Area::LogA, 39), history))
}

/// Does the work's commands.
pub fn run(alloc: Global, work: &Work) -> Result<Ended, Memory> {
    let commands = commands(alloc, work)?;
    let mut engine = engine(alloc)?;
    let mut before = engine.disk().calls;
    for command in &commands {
        before = engine.disk().calls;
        engine = match engine.exec(alloc, command) {
            Ok((next, _)) => next,
            Err(ExecFault::Memory(same)) => {
                let calls = same.into_disk().calls.saturating_sub(before);
                return Ok(Ended::Memory { calls });
            }
            Err(ExecFault::Disk(_)) => return Ok(Ended::Disk),
        };
    }
    let calls = engine.into_disk().calls.saturating_sub(before);
    Ok(Ended::Done { calls })
}
