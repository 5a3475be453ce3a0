// All sequences, one command behind the other.
ghost use Rattle.wse_path.specs.Limits.{standard};
ghost use Rattle.wse_history.specs.History.{IsHistory};
ghost use Rattle.wse_slow_history.specs.Slow.{state_of};

use crate::counts::Counts;
use crate::kept::{NoHistory, replayed};
use crate::same::is_same;
use crate::slow::first;
use crate::table::Table;
use std::alloc::Global;
use wse_history::Answer;
use wse_path::{Bytes, Limits, Memory};
use wse_reply::{Reply, reply_text};
use wse_slow_history::{SlowState, stepped_slowly};

/// The first sequence at which the two differ, by the places of its commands in the table.
#[derive(Drop)]
pub enum Found {
    None,
    /// The answers differ.
    Answers {
        sequence: Vec<usize>,
        kept: Bytes,
        slow: Bytes,
    },
    /// The states differ.
    States {
        sequence: Vec<usize>,
    },
}

/// The answer as it would be emitted.
pub fn text_of(alloc: Global, answer: Answer) -> Result<Bytes, Memory> {
    reply_text(alloc, 1, &Reply::Answer(answer))
}

fn copied(alloc: Global, sequence: &[usize]) -> Result<Vec<usize>, Memory> {
    Ok(sequence.to_vec(alloc)?)
}

/// Lays the history that is kept, after the sequence, beside the state and the answer that are given.
fn compared(
    alloc: Global,
    table: &Table,
    sequence: &[usize],
    state: &SlowState,
    answer: Answer,
) -> Result<Found, NoHistory> {
    let slow = text_of(alloc, answer)?;
    let (history, last) = replayed(alloc, table, sequence)?;
    let kept = match last {
        Some(answer) => text_of(alloc, answer)?,
        None => Bytes::new(Vec::new(alloc)),
    };
    let sequence = copied(alloc, sequence)?;
    if kept != slow {
        return Ok(Found::Answers {
            sequence,
            kept,
            slow,
        });
    }
    if !is_same(&history, state) {
        return Ok(Found::States { sequence });
    }
    Ok(Found::None)
}

/// All sequences that go on with so many commands at most.
fn visit(
    alloc: Global,
    table: &Table,
    sequence: &mut Vec<usize>,
    state: &SlowState,
    left: usize,
    counts: &mut Counts,
) -> Result<Found, NoHistory>
    requires { IsHistory (state_of state.now) standard }
{
    if left == 0 {
        return Ok(Found::None);
    }
    for (place, command) in table.commands.iter().enumerate() {
        sequence.push(place).map_err(Memory::from)?;
        let (next, answer) = stepped_slowly(alloc, &Limits::standard(), state, command)?;
        counts.add(sequence.len(), next.serial > state.serial);
        let found = match compared(alloc, table, sequence.as_slice(), &next, answer)? {
            Found::None => visit(alloc, table, sequence, &next, left - 1, counts)?,
            found => found,
        };
        let Found::None = found else {
            return Ok(found);
        };
        let _ = sequence.pop();
    }
    Ok(Found::None)
}

/// All sequences of so many commands at most, up to the first at which the two differ.
pub fn walk(
    alloc: Global,
    table: &Table,
    most: usize,
    counts: &mut Counts,
) -> Result<Found, NoHistory> {
    let state = first(alloc, table)?;
    let mut sequence = Vec::new(alloc);
    visit(alloc, table, &mut sequence, &state, most, counts)
}
