// What an undo or a redo does to the history, and its answer.
ghost use Rattle.std.specs.Prelude.{◌≡◌, ◌∷◌, [], IfOk};
ghost use Rattle.std.specs.Option.{option_map_or};
ghost use Rattle.wse_rules.specs.Ruling.{one_ruling, closest};
ghost use Rattle.wse_rules.specs.declared.ruling.Ruling.TheVariants as rulings;
ghost use Rattle.wse_element.specs.Split.{split};
ghost use Rattle.wse_history.specs.Moves.{ruled, begun_course, split_outcome, first_ruled, move_outcome};
ghost use Rattle.wse_slow_history.specs.Slow.{state_of, outcome_of, course_of};

use crate::after::records_after;
use crate::course::{SlowCourse, close_each, ended, gone, still};
use crate::outcome::SlowOutcome;
use crate::ruling::{closest, one_ruling, ruling};
use crate::state::SlowState;
use std::alloc::Global;
use wse_element::{Effect, Element};
use wse_history::{MoveEnd, SplitNote};
use wse_locks::Locks;
use wse_path::{Choice, Direction, Files, Limits, Memory, RelPath};
use wse_plain::copies;
use wse_rules::{Cause, Ruling};

/// The histories of the dropped files are closed.
fn flushed(
    alloc: Global,
    limits: &Limits,
    state: &SlowState,
    course: SlowCourse,
    cause: Cause,
    files: Files,
    dropped: Files,
) -> Result<SlowOutcome, Memory>
    ensures { IfOk result (λ o. outcome_of o ≡ ruled limits.now (state_of state.now) (course_of course) (rulings.Flush cause files dropped)) }
{
    let effects = close_each(alloc, course.records.as_slice(), dropped.as_slice())?;
    let end = MoveEnd::Flushed {
        cause,
        files,
        dropped,
    };
    ended(alloc, limits, state, course, effects, end)
}

/// Another participant holds these files. A split that came before is recorded.
fn locked(
    alloc: Global,
    limits: &Limits,
    state: &SlowState,
    course: SlowCourse,
    files: Files,
) -> Result<SlowOutcome, Memory>
    ensures { IfOk result (λ o. outcome_of o ≡ ruled limits.now (state_of state.now) (course_of course) (rulings.Locked files)) }
{
    let end = MoveEnd::Locked { files };
    if course.effects.is_empty() {
        return Ok(still(alloc, end));
    }
    ended(alloc, limits, state, course, Vec::new(alloc), end)
}

/// What a ruling leads to. After a split no second one comes.
fn ruled(
    alloc: Global,
    limits: &Limits,
    state: &SlowState,
    course: SlowCourse,
    ruling: Ruling,
) -> Result<SlowOutcome, Memory>
    ensures { IfOk result (λ o. outcome_of o ≡ ruled limits.now (state_of state.now) (course_of course) ruling) }
{
    match ruling {
        Ruling::Nothing | Ruling::Split { .. } => Ok(still(alloc, MoveEnd::Nothing)),
        Ruling::Cancelled { id } => Ok(still(alloc, MoveEnd::Cancelled { id })),
        Ruling::Go { id } => gone(alloc, limits, state, course, id),
        Ruling::Flush {
            cause,
            files,
            dropped,
        } => flushed(alloc, limits, state, course, cause, files, dropped),
        Ruling::Locked { files } => locked(alloc, limits, state, course, files),
    }
}

/// The id of the element that an undo or a redo at the path is about, and 0 where there is none.
fn asked_at(direction: Direction, elements: &[Element], path: &RelPath) -> u64
    ensures { result ≡ option_map_or (λ r. r.id) (closest direction elements.now path.now) 0 }
{
    match closest(direction, elements, path) {
        Some(element) => element.id(),
        None => 0,
    }
}

fn begun_course(
    alloc: Global,
    state: &SlowState,
    direction: Direction,
    path: &RelPath,
) -> Result<SlowCourse, Memory>
    ensures { IfOk result (λ course. course_of course ≡ begun_course (state_of state.now) direction path.now) }
{
    Ok(SlowCourse {
        direction,
        records: copies(alloc, state.records.as_slice())?,
        effects: Vec::new(alloc),
        note: None,
        asked: asked_at(direction, state.records.as_slice(), path),
    })
}

/// The element that is closest at the path by itself, of one part.
fn alone(
    alloc: Global,
    direction: Direction,
    elements: &[Element],
    locks: &Locks,
    by: u32,
    path: &RelPath,
) -> Result<Ruling, Memory>
    ensures { IfOk result (λ r. r ≡ option_map_or (one_ruling locks.now.entries by path.now) (closest direction elements.now path.now) rulings.Nothing) }
{
    match closest(direction, elements, path) {
        Some(element) => one_ruling(alloc, locks, by, path, element),
        None => Ok(Ruling::Nothing),
    }
}

/// The effect of the split.
fn only_split(alloc: Global, id: u64, first: u64) -> Result<Vec<Effect>, Memory>
    ensures { IfOk result (λ effects. effects.items ≡ Effect.Split id first ∷ []) }
{
    let mut effects = Vec::with_capacity(alloc, 1)?;
    effects.push(Effect::Split { id, first })?;
    Ok(effects)
}

/// The elements after the split.
fn split(alloc: Global, elements: &[Element], id: u64, first: u64) -> Result<Vec<Element>, Memory>
    ensures { IfOk result (λ all. all.items ≡ split elements.now id first) }
{
    records_after(alloc, elements, &Effect::Split { id, first })
}

/// After a split the new element at the path is ruled on by itself.
fn split_outcome(
    alloc: Global,
    limits: &Limits,
    state: &SlowState,
    by: u32,
    path: &RelPath,
    course: SlowCourse,
    note: SplitNote,
) -> Result<SlowOutcome, Memory>
    ensures { IfOk result (λ o. outcome_of o ≡ split_outcome limits.now (state_of state.now) by path.now (course_of course) note) }
{
    let SlowCourse {
        direction,
        records: _,
        effects: _,
        note: _,
        asked,
    } = course;
    let left = split(alloc, state.records.as_slice(), note.id, state.next_id)?;
    let effects = only_split(alloc, note.id, state.next_id)?;
    let ruling = alone(alloc, direction, left.as_slice(), &state.locks, by, path)?;
    let course = SlowCourse {
        direction,
        records: left,
        effects,
        note: Some(note),
        asked,
    };
    ruled(alloc, limits, state, course, ruling)
}

/// What the first ruling leads to.
fn first_ruled(
    alloc: Global,
    limits: &Limits,
    state: &SlowState,
    by: u32,
    path: &RelPath,
    course: SlowCourse,
    ruling: Ruling,
) -> Result<SlowOutcome, Memory>
    ensures { IfOk result (λ o. outcome_of o ≡ first_ruled limits.now (state_of state.now) by path.now (course_of course) ruling) }
{
    match ruling {
        Ruling::Split { id, cause, files } => {
            let note = SplitNote { id, cause, files };
            split_outcome(alloc, limits, state, by, path, course, note)
        }
        other => ruled(alloc, limits, state, course, other),
    }
}

/// What the participant's undo or redo at the path does.
pub(crate) fn move_outcome(
    alloc: Global,
    limits: &Limits,
    state: &SlowState,
    by: u32,
    direction: Direction,
    path: &RelPath,
    choice: &Choice,
) -> Result<SlowOutcome, Memory>
    ensures { IfOk result (λ o. outcome_of o ≡ move_outcome limits.now (state_of state.now) by direction path.now choice.now) }
{
    let elements = state.records.as_slice();
    let ruling = ruling(alloc, direction, elements, &state.locks, by, path, choice)?;
    let course = begun_course(alloc, state, direction, path)?;
    first_ruled(alloc, limits, state, by, path, course, ruling)
}
