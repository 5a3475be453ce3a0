// The plain lists beside it.
ghost use Rattle.std.specs.Prelude.{◌≡◌, IfOk};
ghost use Rattle.wse_path.specs.Limits.{standard};
ghost use Rattle.wse_history.specs.History.{IsHistory};
ghost use Rattle.wse_slow_history.specs.Slow.{state_of};
ghost use Rattle.wse_sequences.specs.Begun.{empty};

use crate::kept::{NoHistory, fresh};
use crate::table::Table;
use std::alloc::Global;
use wse_history::History;
use wse_locks::Locks;
use wse_path::Limits;
use wse_slow_history::{SlowState, stepped_slowly};

/// Nothing is there.
fn nothing(alloc: Global) -> SlowState
    ensures { state_of result ≡ empty }
{
    SlowState {
        files: Vec::new(alloc),
        versions: Vec::new(alloc),
        records: Vec::new(alloc),
        next_id: 1,
        serial: 0,
        locks: Locks::new(alloc),
    }
}

/// The history of an empty tree, and the same in plain lists.
pub fn begun(alloc: Global, limits: Limits) -> Result<(History, SlowState), NoHistory>
    ensures { IfOk result (λ both. IsHistory (state_of both.1) limits) }
{
    let history = fresh(alloc, limits)?;
    let _ = history.limits();
    let state = nothing(alloc);
    Ok((history, state))
}

/// The state after the first commands.
pub fn first(alloc: Global, table: &Table) -> Result<SlowState, NoHistory>
    ensures { IfOk result (λ state. IsHistory (state_of state) standard) }
{
    let limits = Limits::standard();
    let (_, mut state) = begun(alloc, limits)?;
    for command in &table.first {
        let (next, _) = stepped_slowly(alloc, &limits, &state, command)?;
        state = next;
    }
    Ok(state)
}
