// An undisturbed run: the states, and the moments of the disk behind each answer.
use crate::opening::{Answered, Left, answer, make, open};
use crate::shown::push_state;
use crate::sim::script::Script;
use crate::sim::stop::SimStop;
use crate::stage::{Stage, Store, disk_over};
use std::alloc::Global;
use wse_path::{Limits, Memory};
use wse_quiet_disk::QuietDisk;
use wse_run::RunEnd;

/// The disk behind an undisturbed run, and for each number of answered lines the state and the moment.
#[derive(Drop)]
pub struct Past {
    pub disk: QuietDisk,
    pub states: Vec<String>,
    pub moments: Vec<usize>,
}

/// That something is otherwise than it should be.
pub fn differs(alloc: Global, what: &str) -> SimStop {
    match String::from_str(alloc, what) {
        Ok(text) => SimStop::Differs(text),
        Err(_) => SimStop::Memory,
    }
}

/// The text of the store's state.
pub fn state_of(alloc: Global, store: &Store) -> Result<String, Memory> {
    let mut text = String::new(alloc);
    push_state(alloc, &mut text, store.server.engine.history())?;
    Ok(text)
}

/// The store that is made and opened, or the disk where a call failed before.
pub fn made(alloc: Global, script: &Script, fails: Vec<u64>) -> Result<Stage, Memory> {
    let disk = disk_over(alloc, script.tree.duplicate(alloc)?, fails);
    let Left { stage, end } = make(alloc, disk, &Limits::standard());
    match end {
        RunEnd::Done => {}
        _ => return Ok(stage),
    }
    let Left { stage, end: _ } = open(alloc, stage.into_disk(), false, Limits::standard());
    Ok(stage)
}

impl Past {
    fn note(&mut self, alloc: Global, store: &Store) -> Result<(), Memory> {
        self.states.push(state_of(alloc, store)?)?;
        self.moments
            .push(store.server.engine.disk().disk.calls().len())?;
        Ok(())
    }

    // Answers one more line.
    fn take(&mut self, alloc: Global, store: Store, line: &str) -> Result<Store, SimStop> {
        let Answered { stage, text: _ } = answer(alloc, store, line.as_bytes());
        match stage {
            Stage::Open(store) => {
                self.note(alloc, &store)?;
                Ok(store)
            }
            Stage::Stopped(_) => Err(differs(alloc, "an undisturbed run stops")),
        }
    }

    fn take_all(&mut self, alloc: Global, store: Store, lines: &[String]) -> Result<(), SimStop> {
        let mut store = store;
        self.note(alloc, &store)?;
        for line in lines {
            store = self.take(alloc, store, line.as_str())?;
        }
        self.disk = store.into_disk();
        Ok(())
    }

    /// The script's undisturbed run.
    pub fn of(alloc: Global, script: &Script) -> Result<Past, SimStop> {
        let mut past = Past {
            disk: disk_over(alloc, script.tree.duplicate(alloc)?, Vec::new(alloc)),
            states: Vec::new(alloc),
            moments: Vec::new(alloc),
        };
        match made(alloc, script, Vec::new(alloc))? {
            Stage::Open(store) => past.take_all(alloc, store, &script.lines)?,
            Stage::Stopped(_) => return Err(differs(alloc, "an undisturbed store doesn't open")),
        }
        Ok(past)
    }

    /// How many lines were surely answered at that moment; none where no store was open yet.
    pub fn answered_at(&self, moment: usize) -> Option<usize> {
        let count = self.moments.iter().filter(|at| **at <= moment).count();
        count.checked_sub(1)
    }

    /// Whether that is the state behind so many lines, and else whether it is the one behind one more.
    pub fn is_behind(&self, lines: usize, state: &str) -> Option<bool> {
        if self.is_state(lines, state) {
            return Some(false);
        }
        if self.is_state(lines.saturating_add(1), state) {
            return Some(true);
        }
        None
    }

    fn is_state(&self, lines: usize, state: &str) -> bool {
        match self.states.get(lines) {
            Some(text) => text.as_str() == state,
            None => false,
        }
    }
}
