// Rows: a sequence of its own, with each of its answers.
ghost use Rattle.wse_history.specs.History.{IsHistory};
ghost use Rattle.wse_slow_history.specs.Slow.{state_of};

use crate::kept::{NoHistory, give};
use crate::same::is_same;
use crate::slow::begun;
use crate::table::Row;
use crate::walk::text_of;
use std::alloc::Global;
use wse_history::History;
use wse_path::{Bytes, Command, Limits, Memory};
use wse_slow_history::{SlowState, stepped_slowly};

/// The answers of the history that is kept, and whether the plain lists gave the same and are the same after each command.
#[derive(Drop)]
pub struct RowTold {
    pub answers: Vec<Bytes>,
    pub same: bool,
}

/// Gives the commands to both.
fn run_both(
    alloc: Global,
    limits: &Limits,
    commands: &[Command],
    history: &mut History,
    begun: SlowState,
) -> Result<RowTold, Memory>
    requires { IsHistory (state_of begun) limits.now }
{
    let mut answers = Vec::new(alloc);
    let mut same = true;
    let mut state = begun;
    for command in commands {
        let (next, answer) = stepped_slowly(alloc, limits, &state, command)?;
        state = next;
        let slow = text_of(alloc, answer)?;
        let kept = text_of(alloc, give(alloc, history, command)?)?;
        same = same && kept == slow && is_same(history, &state);
        answers.push(kept)?;
    }
    Ok(RowTold { answers, same })
}

/// What the row comes to.
pub fn run_row(alloc: Global, row: &Row) -> Result<RowTold, NoHistory> {
    let (mut history, state) = begun(alloc, row.limits)?;
    let told = run_both(
        alloc,
        &row.limits,
        row.commands.as_slice(),
        &mut history,
        state,
    )?;
    Ok(told)
}
