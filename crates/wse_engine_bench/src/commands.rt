// The commands of a run, the one that is counted last.
use crate::work::{Kind, Work};
use std::alloc::Global;
use wse_path::{
    Choice, Command, Direction, Edit, Encoding, FailureKind, Files, Items, Label, Memory,
    Operation, RelPath, ResourceOp, What,
};

fn path(alloc: Global, name: String) -> Result<RelPath, Memory> {
    let mut segments = Vec::new(alloc);
    segments.push(name)?;
    match RelPath::new(segments) {
        Ok(path) => Ok(path),
        Err(_) => Err(Memory),
    }
}

fn numbered(alloc: Global, prefix: &str, number: usize) -> Result<RelPath, Memory> {
    path(alloc, format!(in alloc; "{prefix}{number}")?)
}

fn create(path: RelPath) -> Operation {
    Operation {
        what: What::Resource(ResourceOp::Create {
            path,
            overwrite: true,
            ignore: false,
        }),
        skipped: false,
    }
}

fn delete(path: RelPath) -> Operation {
    Operation {
        what: What::Resource(ResourceOp::Delete {
            path,
            recursive: false,
            ignore: false,
        }),
        skipped: false,
    }
}

fn edit(alloc: Global, operations: Vec<Operation>) -> Command {
    Command::Edit {
        by: 1,
        edit: Edit {
            label: Label::new(String::new(alloc)),
            failure: FailureKind::Abort,
            encoding: Encoding::Utf16,
            operations: Items::new(operations),
        },
    }
}

fn creates(alloc: Global, prefix: &str, count: usize) -> Result<Command, Memory> {
    let mut operations = Vec::new(alloc);
    for number in 0..count {
        operations.push(create(numbered(alloc, prefix, number)?))?;
    }
    Ok(edit(alloc, operations))
}

// An edit that creates one file, or deletes it.
fn flip(alloc: Global, number: usize) -> Result<Command, Memory> {
    let path = path(alloc, String::from_str(alloc, "flipped")?)?;
    let mut operations = Vec::new(alloc);
    operations.push(if number % 2 == 0 {
        create(path)
    } else {
        delete(path)
    })?;
    Ok(edit(alloc, operations))
}

fn moved(alloc: Global, direction: Direction) -> Result<Command, Memory> {
    Ok(Command::Move {
        by: 1,
        direction,
        path: numbered(alloc, "x", 0)?,
        choice: Choice::All,
    })
}

fn lock(alloc: Global, count: usize) -> Result<Command, Memory> {
    let mut files = Vec::new(alloc);
    for number in 0..count {
        files.push(numbered(alloc, "x", number)?)?;
    }
    Ok(Command::Lock {
        by: 1,
        files: Files::new(files),
    })
}

// The tree and the history as they are to be before.
fn push_before(alloc: Global, work: &Work, commands: &mut Vec<Command>) -> Result<(), Memory> {
    commands.push(creates(alloc, "t", work.tree)?)?;
    for number in 0..work.elements {
        commands.push(flip(alloc, number)?)?;
    }
    Ok(())
}

// The edit, and how often it is undone and redone.
fn push_often(alloc: Global, work: &Work, commands: &mut Vec<Command>) -> Result<(), Memory> {
    commands.push(creates(alloc, "x", work.files)?)?;
    for _ in 0..work.times {
        commands.push(moved(alloc, Direction::Back)?)?;
        commands.push(moved(alloc, Direction::Forward)?)?;
    }
    Ok(())
}

fn push_last(alloc: Global, work: &Work, commands: &mut Vec<Command>) -> Result<(), Memory> {
    match work.kind {
        Kind::Edit => commands.push(creates(alloc, "y", work.files)?)?,
        Kind::Undo => commands.push(moved(alloc, Direction::Back)?)?,
        Kind::Redo => {
            commands.push(moved(alloc, Direction::Back)?)?;
            commands.push(moved(alloc, Direction::Forward)?)?;
        }
        Kind::Flush => {
            commands.push(Command::Forget {
                path: numbered(alloc, "x", 0)?,
            })?;
        }
        Kind::Lock => commands.push(lock(alloc, work.files)?)?,
    }
    Ok(())
}

/// All commands.
pub fn commands(alloc: Global, work: &Work) -> Result<Vec<Command>, Memory> {
    let mut commands = Vec::new(alloc);
    push_before(alloc, work, &mut commands)?;
    push_often(alloc, work, &mut commands)?;
    push_last(alloc, work, &mut commands)?;
    Ok(commands)
}
