// An undo or a redo that goes on, and how it ends.
ghost use Rattle.std.specs.Prelude.{◌≡◌, [], ◌∷◌, ◌++◌, None, IfOk};
ghost use Rattle.std.specs.Option.{option_map_or};
ghost use Rattle.wse_element.specs.Stacks.{record_of};
ghost use Rattle.wse_element.specs.Way.{in_the_way};
ghost use Rattle.wse_element.specs.Effects.{contents_set};
ghost use Rattle.wse_rules.specs.Ruling.{all_paths};
ghost use Rattle.wse_history.specs.Moves.{move_effect, ended, gone, close_each};
ghost use Rattle.wse_history.specs.Outcome.{stays, bump_each, numbered};
ghost use Rattle.wse_slow_history.specs.Slow.{state_of, outcome_of, course_of};

use crate::limits::next_state;
use crate::outcome::{SlowOutcome, numbered, records, stays};
use crate::ruling::all_paths;
use crate::state::SlowState;
use crate::way::in_the_way;
use std::alloc::Global;
use wse_element::{Effect, Element, PartState};
use wse_history::{Answer, MoveEnd, SplitNote};
use wse_path::{Direction, Duplicate, Files, Limits, Memory, RelPath};
use wse_plain::{contents_set, is_live_at, record_of};

/// An undo or a redo as it goes on: the elements and the effects so far, which are those of a split if one came, and its note;
/// and the id of the element that was closest before.
#[derive(Drop)]
pub(crate) struct SlowCourse {
    pub(crate) direction: Direction,
    pub(crate) records: Vec<Element>,
    pub(crate) effects: Vec<Effect>,
    pub(crate) note: Option<SplitNote>,
    pub(crate) asked: u64,
}

fn move_effect(direction: Direction, id: u64) -> Effect
    ensures { result ≡ move_effect direction id }
{
    match direction {
        Direction::Back => Effect::MoveBack { id },
        Direction::Forward => Effect::MoveForward { id },
    }
}

/// Nothing changes.
pub(crate) fn still(alloc: Global, end: MoveEnd) -> SlowOutcome
    ensures { outcome_of result ≡ stays (Answer.Move None end) }
{
    stays(alloc, Answer::Move { split: None, end })
}

/// The course's effects and these are recorded, unless that would pass a limit.
pub(crate) fn ended(
    alloc: Global,
    limits: &Limits,
    state: &SlowState,
    course: SlowCourse,
    mut effects: Vec<Effect>,
    end: MoveEnd,
) -> Result<SlowOutcome, Memory>
    ensures { IfOk result (λ o. outcome_of o ≡ ended limits.now (state_of state.now) (course_of course) effects.items (λ _. end)) }
{
    let SlowCourse {
        direction: _,
        records: _,
        effects: mut all,
        note,
        asked,
    } = course;
    all.append(&mut effects)?;
    let (_, hit) = next_state(alloc, limits, state, all.as_slice())?;
    match hit {
        Some(hit) => Ok(still(alloc, MoveEnd::Limit { id: asked, hit })),
        None => Ok(records(all, Answer::Move { split: note, end })),
    }
}

/// The paths of the element with the id.
fn paths_of(alloc: Global, elements: &[Element], id: u64) -> Result<Files, Memory>
    ensures { IfOk result (λ paths. paths ≡ option_map_or all_paths (record_of elements.now id) []) }
{
    match record_of(elements, id) {
        Some(element) => all_paths(alloc, element),
        None => Ok(Files::new(Vec::new(alloc))),
    }
}

/// The element is moved, and the version of each of the paths rises by one.
fn moving(
    alloc: Global,
    direction: Direction,
    id: u64,
    paths: &[RelPath],
) -> Result<Vec<Effect>, Memory>
    ensures { IfOk result (λ effects. effects.items ≡ move_effect direction id ∷ bump_each paths.now) }
{
    let mut effects = Vec::new(alloc);
    effects.push(move_effect(direction, id))?;
    for path in paths {
        effects.push(Effect::Bump {
            path: path.duplicate(alloc)?,
            by: 1,
        })?;
    }
    Ok(effects)
}

/// The element is moved at these paths, which are all of its own and have no file in their way.
fn moved(
    alloc: Global,
    limits: &Limits,
    state: &SlowState,
    course: SlowCourse,
    id: u64,
    paths: &[RelPath],
) -> Result<SlowOutcome, Memory>
    ensures { IfOk result (λ o. outcome_of o ≡ ended limits.now (state_of state.now) (course_of course)
        (move_effect course.direction id ∷ bump_each paths.now) (λ next. MoveEnd.Done id (numbered next paths.now))) }
{
    let mut effects = moving(alloc, course.direction, id, paths)?;
    let SlowCourse {
        direction: _,
        records: _,
        effects: mut all,
        note,
        asked,
    } = course;
    all.append(&mut effects)?;
    let (next, hit) = next_state(alloc, limits, state, all.as_slice())?;
    match hit {
        Some(hit) => Ok(still(alloc, MoveEnd::Limit { id: asked, hit })),
        None => {
            let changed = numbered(alloc, &next, paths)?;
            let end = MoveEnd::Done { id, changed };
            Ok(records(all, Answer::Move { split: note, end }))
        }
    }
}

/// The files in the way of the element, in path order.
fn blocking(alloc: Global, state: &SlowState, course: &SlowCourse, id: u64) -> Result<Files, Memory>
    ensures { IfOk result (λ files. files ≡ in_the_way (state_of state.now).files (contents_set course.now.records.items (move_effect course.now.direction id))) }
{
    let effect = move_effect(course.direction, id);
    let contents = contents_set(alloc, course.records.as_slice(), &effect)?;
    in_the_way(alloc, state.files.as_slice(), contents.as_slice())
}

/// The element is moved at all its paths, unless files are in the way.
pub(crate) fn gone(
    alloc: Global,
    limits: &Limits,
    state: &SlowState,
    course: SlowCourse,
    id: u64,
) -> Result<SlowOutcome, Memory>
    ensures { IfOk result (λ o. outcome_of o ≡ gone limits.now (state_of state.now) (course_of course) id) }
{
    let files = blocking(alloc, state, &course, id)?;
    if !files.is_empty() {
        let id = course.asked;
        return Ok(still(alloc, MoveEnd::InTheWay { id, files }));
    }
    let paths = paths_of(alloc, course.records.as_slice(), id)?;
    moved(alloc, limits, state, course, id, paths.as_slice())
}

/// All live parts at each of the paths are closed.
pub(crate) fn close_each(
    alloc: Global,
    elements: &[Element],
    paths: &[RelPath],
) -> Result<Vec<Effect>, Memory>
    ensures { IfOk result (λ effects. effects.items ≡ close_each elements.now paths.now) }
{
    let mut effects = Vec::new(alloc);
    for path in paths {
        if is_live_at(elements, path) {
            effects.push(Effect::Drop {
                path: path.duplicate(alloc)?,
                reason: PartState::Closed,
            })?;
        }
    }
    Ok(effects)
}
