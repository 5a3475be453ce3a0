// Engines over an empty store, and commands from text.
use std::alloc::Global;
use std::test::Fail;
use wse_apply::{are_within_standard, limit_hit};
use wse_disk::{Area, Disk, MemDisk};
use wse_element::Elements;
use wse_engine::Engine;
use wse_history::History;
use wse_path::{
    Choice, Command, Direction, Edit, Encoding, FailureKind, Files, Items, Label, Limits,
    Operation, RelPath, ResourceOp, Tree, Versions, What,
};
use wse_quiet_disk::QuietDisk;
use wse_stacks::Stacks;
use wse_txn::Idle;

/// A journal of one record, worked by hand: the state of a store over an empty tree. Its closed gate is the last byte.
const JOURNAL: [u8; 40] = [
    0x57, 0x53, 0x45, 0x4c, 0x4f, 0x47, 0x30, 0x31, 0xa5, 0, 0, 0, 0x19, 0, 0, 0, 0, 0, 0, 0, 0, 0,
    0, 0, 0, 0, 0, 0, 0, 1, 0, 0, 0, 0, 0, 0, 0, 0, 0x5a, 0,
];

/// The place of its closed gate.
pub const GATE: u64 = 39;

/// The path of one segment.
pub fn path(alloc: Global, name: &str) -> Result<RelPath, Fail> {
    let mut segments = Vec::new(alloc);
    segments.push(String::from_str(alloc, name)?)?;
    Ok(RelPath::new(segments)?)
}

// `+NAME` creates a file, and `-NAME` deletes one.
fn operation_of(alloc: Global, word: &str) -> Result<Operation, Fail> {
    let name = word.trim_start_matches('+').trim_start_matches('-');
    let path = path(alloc, name)?;
    let what = if word.starts_with('+') {
        ResourceOp::Create {
            path,
            overwrite: false,
            ignore: false,
        }
    } else {
        ResourceOp::Delete {
            path,
            recursive: false,
            ignore: false,
        }
    };
    Ok(Operation {
        what: What::Resource(what),
        skipped: false,
    })
}

fn edit_of(alloc: Global, words: &str) -> Result<Edit, Fail> {
    let mut operations = Vec::new(alloc);
    for word in words.split(' ') {
        operations.push(operation_of(alloc, word)?)?;
    }
    Ok(Edit {
        label: Label::new(String::new(alloc)),
        failure: FailureKind::Abort,
        encoding: Encoding::Utf16,
        operations: Items::new(operations),
    })
}

fn moved(alloc: Global, direction: Direction, name: &str) -> Result<Command, Fail> {
    Ok(Command::Move {
        by: 1,
        direction,
        path: path(alloc, name)?,
        choice: Choice::All,
    })
}

fn lock(alloc: Global, name: &str) -> Result<Command, Fail> {
    let mut files = Vec::new(alloc);
    files.push(path(alloc, name)?)?;
    Ok(Command::Lock {
        by: 1,
        files: Files::new(files),
    })
}

/// Commands, cut at `|`, as `command_of` reads them.
pub fn commands_of(alloc: Global, text: &str) -> Result<Vec<Command>, Fail> {
    let mut commands = Vec::new(alloc);
    for words in text.split('|') {
        commands.push(command_of(alloc, words)?)?;
    }
    Ok(commands)
}

// `undo NAME`, `redo NAME`, `lock NAME`, `forget NAME`, `look NAME`, or an edit, as `+a -b`.
fn command_of(alloc: Global, words: &str) -> Result<Command, Fail> {
    let (kind, name) = words.split_once(' ').unwrap_or((words, ""));
    match kind {
        "undo" => moved(alloc, Direction::Back, name),
        "redo" => moved(alloc, Direction::Forward, name),
        "lock" => lock(alloc, name),
        "forget" => Ok(Command::Forget {
            path: path(alloc, name)?,
        }),
        "look" => Ok(Command::Look {
            path: path(alloc, name)?,
        }),
        _ => Ok(Command::Edit {
            by: 1,
            edit: edit_of(alloc, words)?,
        }),
    }
}

fn history(alloc: Global) -> Result<History, Fail> {
    let Ok(stacks) = Stacks::from_elements(alloc, Elements::new(Vec::new(alloc)), 1, 0) else {
        return Err(Fail::new("no stacks"));
    };
    let limits = Limits::standard();
    let tree = Tree::new(alloc);
    if !are_within_standard(&limits) {
        return Err(Fail::new("limits"));
    }
    match limit_hit(&limits, &tree) {
        Some(_) => Err(Fail::new("limits")),
        None => Ok(History::new(alloc, stacks, Versions::new(alloc), tree, limits)),
    }
}

/// How many calls make the disk.
pub const MAKING: u64 = 2;

/// The engine of a store over an empty tree, whose disk's calls with these numbers fail.
pub fn engine(alloc: Global, fails: Vec<u64>) -> Result<Engine<QuietDisk>, Fail> {
    let history = history(alloc)?;
    let disk = MemDisk::new(alloc, Tree::new(alloc), fails);
    let mut quiet = QuietDisk::new(disk);
    let _ = quiet.area_write(Area::LogA, 0, &JOURNAL);
    let _ = quiet.sync();
    Ok(Engine::of(Idle::at(quiet, Area::LogA, GATE), history))
}
