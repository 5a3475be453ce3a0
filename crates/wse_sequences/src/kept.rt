// The history that is kept.
ghost use Rattle.std.specs.Prelude.{◌≡◌, IfOk};
ghost use Rattle.wse_sequences.specs.Begun.{empty};

use crate::table::Table;
use std::alloc::Global;
use wse_apply::{are_within_standard, limit_hit};
use wse_element::Elements;
use wse_history::{Answer, History, Planned};
use wse_path::{Command, Limits, Memory, Tree, Versions};
use wse_stacks::Stacks;

/// Why there is no history.
#[derive(Drop)]
pub enum NoHistory {
    /// A limit is above the program's.
    Limits,
    /// There was no memory.
    Memory,
}

impl From<Memory> for NoHistory {
    fn from(_: Memory) -> NoHistory {
        NoHistory::Memory
    }
}

/// The history of an empty tree.
pub fn fresh(alloc: Global, limits: Limits) -> Result<History, NoHistory>
    ensures state { IfOk result (λ history. history.state ≡ empty) }
    ensures limits { IfOk result (λ history. history.limits ≡ limits) }
{
    let Ok(stacks) = Stacks::from_elements(alloc, Elements::new(Vec::new(alloc)), 1, 0) else {
        return Err(NoHistory::Memory);
    };
    let versions = Versions::new(alloc);
    let tree = Tree::new(alloc);
    if !are_within_standard(&limits) {
        return Err(NoHistory::Limits);
    }
    match limit_hit(&limits, &tree) {
        Some(_) => Err(NoHistory::Limits),
        None => Ok(History::new(alloc, stacks, versions, tree, limits)),
    }
}

/// Does what the command asks, and says what the answer is.
pub fn give(alloc: Global, history: &mut History, command: &Command) -> Result<Answer, Memory> {
    let Planned {
        plan,
        locks,
        answer,
    } = history.plan(alloc, command)?;
    if !plan.effects.is_empty() {
        history.reserve(alloc, &plan)?;
        history.commit(plan, locks);
    } else if plan.changes.is_empty() {
        history.commit(plan, locks);
    }
    Ok(answer)
}

fn give_first(alloc: Global, history: &mut History, table: &Table) -> Result<(), Memory> {
    for command in &table.first {
        let _ = give(alloc, history, command)?;
    }
    Ok(())
}

/// The history after the first commands and the sequence, which names commands of the table by their place, and the answer to
/// the last of them.
pub fn replayed(
    alloc: Global,
    table: &Table,
    sequence: &[usize],
) -> Result<(History, Option<Answer>), NoHistory> {
    let mut history = fresh(alloc, Limits::standard())?;
    give_first(alloc, &mut history, table)?;
    let mut last = None;
    for place in sequence {
        if let Some(command) = table.commands.get(*place) {
            last = Some(give(alloc, &mut history, command)?);
        }
    }
    Ok((history, last))
}
