// What is to be done.
use std::env;
use std::rt::Env;

/// The command whose calls are counted.
#[derive(Clone, Copy, PartialEq, Eq)]
pub enum Kind {
    Edit,
    Undo,
    Redo,
    Flush,
    Lock,
}

#[derive(Drop)]
pub struct Work {
    pub kind: Kind,
    /// How many files the tree has before.
    pub tree: usize,
    /// How many elements the history has before, besides.
    pub elements: usize,
    /// How many files the command is about.
    pub files: usize,
    /// How often its edit is undone and redone before.
    pub times: usize,
}

/// The words KIND FILES-IN-TREE ELEMENTS FILES TIMES behind the program's name.
pub fn told(rt: &(impl Env + AllocGlobal)) -> Option<Work> {
    let mut words = env::args(rt).ok()?;
    let _program = words.next()?;
    let kind = kind_of(words.next()?.as_str())?;
    Some(Work {
        kind,
        tree: words.next()?.as_str().parse().ok()?,
        elements: words.next()?.as_str().parse().ok()?,
        files: words.next()?.as_str().parse().ok()?,
        times: words.next()?.as_str().parse().ok()?,
    })
}

fn kind_of(word: &str) -> Option<Kind> {
    match word {
        "edit" => Some(Kind::Edit),
        "undo" => Some(Kind::Undo),
        "redo" => Some(Kind::Redo),
        "flush" => Some(Kind::Flush),
        "lock" => Some(Kind::Lock),
        _ => None,
    }
}
