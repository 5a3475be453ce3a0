// What a step leaves.
use crate::row::{Cell, Row, Step, copy};
use std::alloc::Global;
use std::test::Fail;

fn closed(cell: &Cell) -> Cell {
    Cell {
        file: cell.file,
        live: false,
        valid: cell.valid,
        was: 0,
        is: 0,
    }
}

fn invalid(cell: &Cell) -> Cell {
    Cell {
        file: cell.file,
        live: cell.live,
        valid: false,
        was: cell.was,
        is: cell.is,
    }
}

fn cell_after(cell: &Cell, done: bool, step: &Step) -> Cell {
    match step {
        Step::Close(file) if cell.live && cell.file == *file => closed(cell),
        Step::Lose(file) if cell.live && cell.file == *file && !done => closed(cell),
        Step::Invalidate(file) if cell.live && cell.file == *file => invalid(cell),
        _ => *cell,
    }
}

fn is_done_after(row: &Row, step: &Step) -> bool {
    match step {
        Step::Back(id) => row.done && row.id != *id,
        Step::Forward(id) => row.done || row.id == *id,
        _ => row.done,
    }
}

// An element that is live nowhere is gone.
fn push_row(alloc: Global, all: &mut Vec<Row>, row: &Row, step: &Step) -> Result<(), Fail> {
    let mut cells = Vec::new(alloc);
    for cell in &row.cells {
        cells.push(cell_after(cell, row.done, step))?;
    }
    let after = Row {
        id: row.id,
        done: is_done_after(row, step),
        cells,
    };
    if after.cells.iter().any(|cell| cell.live) {
        all.push(after)?;
    }
    Ok(())
}

fn piece(alloc: Global, row: &Row, id: u64, cell: &Cell) -> Result<Row, Fail> {
    let mut cells = Vec::new(alloc);
    cells.push(*cell)?;
    Ok(Row {
        id,
        done: row.done,
        cells,
    })
}

// The next free id behind the pieces.
fn push_pieces(alloc: Global, all: &mut Vec<Row>, row: &Row, first: u64) -> Result<u64, Fail> {
    let mut id = first;
    for cell in row.cells.iter().filter(|cell| cell.live) {
        all.push(piece(alloc, row, id, cell)?)?;
        id = id.wrapping_add(1);
    }
    Ok(id)
}

fn is_split(row: &Row, step: &Step) -> bool {
    match step {
        Step::Split(id, _) => row.id == *id,
        _ => false,
    }
}

/// Puts what the step leaves behind the others, and answers the next free id.
pub fn push_after(
    alloc: Global,
    all: &mut Vec<Row>,
    rows: &[Row],
    next: u64,
    step: &Step,
) -> Result<u64, Fail> {
    let mut free = next;
    for row in rows {
        if is_split(row, step) {
            free = push_pieces(alloc, all, row, next)?;
        } else {
            push_row(alloc, all, row, step)?;
        }
    }
    if let Step::Push(row) = step {
        all.push(copy(alloc, row)?)?;
        free = next.wrapping_add(1);
    }
    Ok(free)
}
