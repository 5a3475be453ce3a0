// The steps of a script.
use wse_disk::Area;
use wse_path::{Bytes, Limits, RelPath, Tree};

/// One step of a script.
#[derive(Drop)]
pub enum Step {
    /// A new disk that holds the tree, and the limits from here on.
    Tree { tree: Tree, limits: Limits },
    /// The calls of the disk with these numbers fail, counted from 1 from here on. No store is open then.
    Fail { numbers: Vec<u64> },
    /// The disk becomes what a crash leaves at the moment, or now, by the choice. No store is open then.
    Crash { moment: Option<u64>, choice: u64 },
    /// Tells the calls that changed the disk since the last such step.
    Calls,
    /// Tries the lines over the tree, with a crash at every moment and with each call of a disk failing.
    Try { tree: Tree, lines: Vec<String> },
    /// Tries scripts that are made from a number.
    Sim { seed: u64, count: u64 },
    Do(Deed),
}

/// What is done with the disk, or the store that is open over it.
#[derive(Drop)]
pub enum Deed {
    /// Makes a store over the tree.
    Init,
    /// Opens the store, perhaps adopting what differs.
    Start {
        adopt: bool,
    },
    /// A command line, which the store answers.
    Serve {
        line: Vec<u8>,
    },
    /// Opens the store and answers lines from a source and into a sink that are as told.
    Run(Run),
    /// Closes the store.
    Stop,
    /// Tells what the store holds, or the disk.
    Show,
    /// Tells the bytes of an area.
    Bytes {
        area: Area,
    },
    /// Writes into an area.
    Patch {
        area: Area,
        at: u64,
        bytes: Vec<u8>,
    },
    /// Stores a file behind the store's back, or erases it.
    Put {
        path: RelPath,
        content: Option<Bytes>,
    },
}

/// What lines are answered from and into.
#[derive(Drop)]
pub struct Run {
    pub adopt: bool,
    pub text: Vec<u8>,
    /// The most bytes of a read or of an emitted piece.
    pub chunk: usize,
    pub max_input: u64,
    /// The numbers of the reads and of the emits that fail.
    pub reads: Vec<u64>,
    pub emits: Vec<u64>,
}
