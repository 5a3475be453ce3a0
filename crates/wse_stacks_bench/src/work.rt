// What is to be done.
use std::env;
use std::rt::Env;

/// Which command is done to the stacks.
#[derive(Clone, Copy)]
pub enum Command {
    /// A new element comes.
    Edit,
    /// A new element comes and is undone.
    Undo,
    /// A new element comes and is split.
    Split,
    /// The futures of an undone element's paths are dropped.
    Drop,
    /// The history of an element's paths is closed.
    Flush,
    /// Versions rise.
    Bump,
    /// What the elements would count for after the futures of as many paths are dropped.
    Weigh,
    /// The stacks are made of elements.
    Link,
}

#[derive(Drop)]
pub struct Work {
    pub command: Command,
    /// How many elements there are before.
    pub elements: usize,
    /// How many parts the new element has.
    pub parts: usize,
    /// How often it is done.
    pub times: usize,
}

fn command_of(word: &str) -> Option<Command> {
    match word {
        "edit" => Some(Command::Edit),
        "undo" => Some(Command::Undo),
        "split" => Some(Command::Split),
        "drop" => Some(Command::Drop),
        "flush" => Some(Command::Flush),
        "bump" => Some(Command::Bump),
        "weigh" => Some(Command::Weigh),
        "link" => Some(Command::Link),
        _ => None,
    }
}

/// The words COMMAND ELEMENTS PARTS TIMES behind the program's name.
pub fn told(rt: &(impl Env + AllocGlobal)) -> Option<Work> {
    let mut words = env::args(rt).ok()?;
    let _program = words.next()?;
    let command = command_of(words.next()?.as_str())?;
    let elements = words.next()?.as_str().parse::<usize>().ok()?;
    let parts = words.next()?.as_str().parse::<usize>().ok()?;
    let times = words.next()?.as_str().parse::<usize>().ok()?;
    Some(Work {
        command,
        elements,
        parts,
        times,
    })
}
