// What an undo or a redo is going to do.
ghost use Rattle.std.specs.Prelude.{◌≡◌, None, filter, IfOk};
ghost use Rattle.std.specs.List.{list_any};
ghost use Rattle.std.specs.Option.{option_map_or};
ghost use Rattle.wse_element.specs.Live.{is_live_at};
ghost use Rattle.wse_path.specs.declared.limits.Limits.{Limits};
ghost use Rattle.wse_element.specs.State.{State};
ghost use Rattle.wse_rules.specs.Ruling.{closest};
ghost use Rattle.wse_history.specs.Moves.{move_outcome};
ghost use Rattle.wse_history.specs.Outcome.{stays};
ghost use Rattle.wse_history.specs.Planning.{PlansAsOutcome, MayRecordIfAny};

use crate::answer::{Answer, MoveEnd, SplitNote};
use crate::asked::Asked;
use crate::closes::plan_closed;
use crate::forgets::is_live_at;
use crate::goes::plan_go;
use crate::history::History;
use crate::planned::Planned;
use crate::plans::stays;
use crate::splits::plan_split;
use std::alloc::Global;
use wse_path::{Choice, Direction, Duplicate, Memory, RelPath};
use wse_rules::{Ruling, verdict};
use wse_stacks::Stacks;

fn second_choice(alloc: Global, choice: &Choice) -> Result<Choice, Memory>
    ensures { IfOk result (λ copy. copy ≡ choice.now) }
{
    match choice {
        Choice::All => Ok(Choice::All),
        Choice::This => Ok(Choice::This),
        Choice::Cancel => Ok(Choice::Cancel),
        Choice::Turned { files } => Ok(Choice::Turned {
            files: files.duplicate(alloc)?,
        }),
    }
}

/// The element that an undo or a redo at the path is about, and 0 where there is none. Takes no memory.
fn asked_id(stacks: &Stacks, direction: Direction, path: &RelPath) -> u64
    ensures { result ≡ option_map_or (λ r. r.id) (closest direction stacks.now.state.records path.now) 0 }
{
    let id = match direction {
        Direction::Back => stacks.closest_past(path),
        Direction::Forward => stacks.closest_future(path),
    };
    id.unwrap_or(0)
}

/// Those of the paths at which an element is live.
fn live_of(alloc: Global, stacks: &Stacks, paths: &[RelPath]) -> Result<Vec<RelPath>, Memory>
    ensures { IfOk result (λ live. live.items ≡ filter (λ p. list_any (is_live_at p) stacks.now.state.records) paths.now) }
{
    let mut live = Vec::new(alloc);
    for path in paths {
        if is_live_at(stacks, path) {
            live.push(path.duplicate(alloc)?)?;
        }
    }
    Ok(live)
}

/// Nothing changes.
fn ended(alloc: Global, end: MoveEnd) -> Planned
    ensures planned { (s : State) → PlansAsOutcome s (stays (Answer.Move None end)) result }
    ensures may { (limits : Limits) (s : State) → MayRecordIfAny limits s result.plan }
{
    stays(alloc, Answer::Move { split: None, end })
}

/// What an undo or a redo at the path by the participant is going to do, and its answer. It costs about what it changes.
pub(crate) fn plan_move(
    alloc: Global,
    history: &History,
    by: u32,
    direction: Direction,
    path: &RelPath,
    choice: &Choice,
) -> Result<Planned, Memory>
    ensures planned { IfOk result (PlansAsOutcome history.now.state (move_outcome history.now.limits history.now.state by direction path.now choice.now)) }
    ensures may { IfOk result (λ planned. MayRecordIfAny history.now.limits history.now.state planned.plan) }
{
    let _ = history.limits();
    let stacks = history.stacks();
    let choice = second_choice(alloc, choice)?;
    let asked = Asked {
        direction,
        id: asked_id(stacks, direction, path),
        split: None,
    };
    match verdict(alloc, stacks, history.locks(), by, path, direction, choice)? {
        Ruling::Nothing => Ok(ended(alloc, MoveEnd::Nothing)),
        Ruling::Cancelled { id } => Ok(ended(alloc, MoveEnd::Cancelled { id })),
        Ruling::Locked { files } => Ok(ended(alloc, MoveEnd::Locked { files })),
        Ruling::Go { id } => match stacks.element(id) {
            Some(element) => plan_go(alloc, history, asked, id, element.parts()),
            None => unreachable!(),
        },
        Ruling::Flush {
            cause,
            files,
            dropped,
        } => {
            let paths = live_of(alloc, stacks, dropped.as_slice())?;
            let end = MoveEnd::Flushed {
                cause,
                files,
                dropped,
            };
            plan_closed(alloc, history, asked, paths.as_slice(), end)
        }
        Ruling::Split { id, cause, files } => match stacks.element(id) {
            Some(element) => {
                let note = SplitNote { id, cause, files };
                plan_split(alloc, history, by, direction, path, element, note)
            }
            None => unreachable!(),
        },
    }
}
