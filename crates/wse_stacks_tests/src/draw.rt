// Steps that are drawn at random, and the effects that they stand for.
use crate::dice::Dice;
use crate::given::{change, element_of, path};
use crate::row::{Cell, Row, Step, future, past};
use crate::world::World;
use std::alloc::Global;
use std::test::Fail;
use wse_element::{Effect, Part, PartState};

/// The path's text.
pub fn name(file: u8) -> &'static str {
    match file {
        0 => "a",
        1 => "b",
        _ => "c",
    }
}

/// The content's text.
pub fn content(number: u8) -> &'static str {
    match number {
        0 => "-",
        1 => "x",
        2 => "y",
        _ => "z",
    }
}

// Mostly what the path's closest past left.
fn found(rows: &[Row], file: u8, dice: &mut Dice) -> u8 {
    if dice.roll(12) == 0 {
        return dice.content();
    }
    let Some(row) = past(rows, file) else {
        return 0;
    };
    match row.cell_at(file) {
        Some(cell) => cell.is,
        None => 0,
    }
}

fn cell(rows: &[Row], file: u8, dice: &mut Dice) -> Cell {
    let was = found(rows, file, dice);
    let mut is = dice.content();
    if is == was {
        is = if was == 0 { 1 } else { 0 };
    }
    Cell {
        file,
        live: true,
        valid: true,
        was,
        is,
    }
}

fn cells(alloc: Global, rows: &[Row], dice: &mut Dice) -> Result<Vec<Cell>, Fail> {
    let mut all = Vec::new(alloc);
    let least = dice.file();
    for file in 0u8..3 {
        if file == least || future(rows, file).is_none() && dice.roll(3) == 0 {
            all.push(cell(rows, file, dice))?;
        }
    }
    Ok(all)
}

fn push(alloc: Global, world: &World, dice: &mut Dice) -> Result<Step, Fail> {
    let mut id = world.next;
    if dice.roll(12) == 0 {
        id = id.wrapping_add(1);
    }
    let cells = cells(alloc, world.rows.as_slice(), dice)?;
    Ok(Step::Push(Row {
        id,
        done: true,
        cells,
    }))
}

fn id_of(row: Option<&Row>) -> u64 {
    match row {
        Some(row) => row.id,
        None => 0,
    }
}

// Which kind of step comes next: from 10 on none that sets paths of the tree, of which a list has one at most.
fn kind(world: &World, dice: &mut Dice) -> u32 {
    if world.sets && dice.roll(6) != 0 {
        return dice.roll(5).wrapping_add(10);
    }
    dice.roll(15)
}

/// A step behind that history.
pub fn step(alloc: Global, world: &World, dice: &mut Dice) -> Result<Step, Fail> {
    let rows = world.rows.as_slice();
    let file = dice.file();
    match kind(world, dice) {
        0 | 1 | 2 | 3 => push(alloc, world, dice),
        4 | 5 => Ok(Step::Back(id_of(past(rows, file)))),
        6 | 7 | 8 => Ok(Step::Forward(id_of(future(rows, file)))),
        9 => Ok(Step::Set(file)),
        10 | 11 => Ok(Step::Split(id_of(past(rows, file)), world.next)),
        12 => Ok(Step::Lose(file)),
        13 => Ok(lost(file, dice)),
        _ => Ok(Step::Bump(file)),
    }
}

fn lost(file: u8, dice: &mut Dice) -> Step {
    if dice.roll(2) == 0 {
        Step::Close(file)
    } else {
        Step::Invalidate(file)
    }
}

fn part(alloc: Global, cell: &Cell) -> Result<Part, Fail> {
    change(
        alloc,
        name(cell.file),
        content(cell.was),
        content(cell.is),
        true,
    )
}

fn pushed(alloc: Global, row: &Row) -> Result<Effect, Fail> {
    let mut parts = Vec::new(alloc);
    for cell in &row.cells {
        parts.push(part(alloc, cell)?)?;
    }
    Ok(Effect::Push(element_of(alloc, row.id, parts)?))
}

fn dropped(alloc: Global, file: u8, reason: PartState) -> Result<Effect, Fail> {
    Ok(Effect::Drop {
        path: path(alloc, name(file))?,
        reason,
    })
}

/// The effect that the step stands for.
pub fn effect(alloc: Global, step: &Step) -> Result<Effect, Fail> {
    match step {
        Step::Push(row) => pushed(alloc, row),
        Step::Back(id) => Ok(Effect::MoveBack { id: *id }),
        Step::Forward(id) => Ok(Effect::MoveForward { id: *id }),
        Step::Split(id, first) => Ok(Effect::Split {
            id: *id,
            first: *first,
        }),
        Step::Close(file) => dropped(alloc, *file, PartState::Closed),
        Step::Lose(file) => dropped(alloc, *file, PartState::Incompatible),
        Step::Invalidate(file) => Ok(Effect::Invalidate {
            path: path(alloc, name(*file))?,
        }),
        Step::Bump(file) => Ok(Effect::Bump {
            path: path(alloc, name(*file))?,
            by: 1,
        }),
        Step::Set(file) => Ok(Effect::Set {
            path: path(alloc, name(*file))?,
            content: None,
        }),
    }
}
