// Making a store, opening it, and answering lines, each with what is to be told.
use crate::stage::{Stage, Store};
use crate::step::Run;
use std::alloc::Global;
use wse_apply::are_within_standard;
use wse_engine::Engine;
use wse_io::{MemSink, MemSource};
use wse_path::{Hit, Limits, Memory};
use wse_quiet_disk::QuietDisk;
use wse_recover::{InitFault, OpenFault, init_store};
use wse_run::{RanStore, RunEnd, StoreRun, run_store};
use wse_server::{Server, Stopped};
use wse_store::server_of;
use wse_uri::root_of;

// The URI that paths are below.
const ROOT: &str = "file:///w";

// The most bytes of a line.
const LONGEST_LINE: usize = 33_554_432;

/// What a step left, and how it ended.
#[derive(Drop)]
pub struct Left {
    pub stage: Stage,
    pub end: RunEnd,
}

fn stopped(disk: QuietDisk, end: RunEnd) -> Left {
    Left {
        stage: Stage::Stopped(disk),
        end,
    }
}

fn unopened(fault: OpenFault<QuietDisk>) -> Left {
    match fault {
        OpenFault::Disk(disk) => stopped(disk, RunEnd::Disk),
        OpenFault::NotAStore { disk, at } => stopped(disk, RunEnd::NotAStore { at }),
        OpenFault::TooBig { disk, which, found } => {
            let hit = Hit {
                which,
                would_be: found,
            };
            stopped(disk, RunEnd::TooBig(hit))
        }
        OpenFault::Differs { disk, path } => stopped(disk, RunEnd::Differs(path)),
        OpenFault::Memory(disk) => stopped(disk, RunEnd::Memory),
    }
}

/// Makes a store over the tree of the disk.
pub fn make(alloc: Global, disk: QuietDisk, limits: &Limits) -> Left {
    if !are_within_standard(limits) {
        return stopped(disk, RunEnd::Memory);
    }
    match init_store(alloc, disk, limits) {
        Ok(disk) => stopped(disk, RunEnd::Done),
        Err(InitFault::Disk(disk)) => stopped(disk, RunEnd::Disk),
        Err(InitFault::TooBig { disk, which, found }) => {
            let hit = Hit {
                which,
                would_be: found,
            };
            stopped(disk, RunEnd::TooBig(hit))
        }
        Err(InitFault::Memory(disk)) => stopped(disk, RunEnd::Memory),
    }
}

fn opened(alloc: Global, engine: Engine<QuietDisk>) -> Left {
    match root_of(alloc, ROOT) {
        Ok(root) => Left {
            stage: Stage::Open(Store {
                server: server_of(engine, root),
                lines: 0,
            }),
            end: RunEnd::Done,
        },
        Err(_) => stopped(engine.into_disk(), RunEnd::Memory),
    }
}

/// Opens the store on the disk.
pub fn open(alloc: Global, disk: QuietDisk, adopt: bool, limits: Limits) -> Left {
    if !are_within_standard(&limits) {
        return stopped(disk, RunEnd::Memory);
    }
    match Engine::start(alloc, disk, adopt, limits) {
        Ok(engine) => opened(alloc, engine),
        Err(fault) => unopened(fault),
    }
}

/// What answering a line left: the text of the answer, or how it ended without one.
#[derive(Drop)]
pub struct Answered {
    pub stage: Stage,
    pub text: Result<Vec<u8>, RunEnd>,
}

/// Answers a line.
pub fn answer(alloc: Global, store: Store, line: &[u8]) -> Answered {
    let (server, lines) = store.into_parts();
    if line.len() > LONGEST_LINE {
        return Answered {
            stage: Stage::Stopped(server.into_disk()),
            text: Err(RunEnd::Memory),
        };
    }
    let lines = lines.saturating_add(1);
    match server.line(alloc, lines, line) {
        Ok((server, text)) => Answered {
            stage: Stage::Open(Store { server, lines }),
            text: Ok(text),
        },
        Err(Stopped::Disk(disk)) => Answered {
            stage: Stage::Stopped(disk),
            text: Err(RunEnd::Disk),
        },
        Err(Stopped::Memory(disk)) => Answered {
            stage: Stage::Stopped(disk),
            text: Err(RunEnd::Memory),
        },
    }
}

/// What a run left, how it ended, and what came out.
#[derive(Drop)]
pub struct Ran {
    pub disk: QuietDisk,
    pub end: RunEnd,
    pub out: MemSink,
}

/// Opens the store and answers the lines of a source into a sink, as the program does.
pub fn run(alloc: Global, disk: QuietDisk, limits: Limits, run: Run) -> Result<Ran, Memory> {
    let Ok(root) = root_of(alloc, ROOT) else {
        return Err(Memory);
    };
    let Run {
        adopt,
        text,
        chunk,
        max_input,
        reads,
        emits,
    } = run;
    let mut source = MemSource::new(text, chunk.max(1), reads);
    let mut out = MemSink::new(alloc, chunk.max(1), emits);
    if !are_within_standard(&limits) {
        return Err(Memory);
    }
    let max_input = max_input.max(1).min(1_000_000_000);
    let run = StoreRun {
        root,
        adopt,
        limits,
        max_input,
    };
    let RanStore { disk, end } = run_store(alloc, disk, run, &mut source, &mut out);
    Ok(Ran { disk, end, out })
}
