// When a step may come.
use crate::row::{Cell, Row, Step, future, past};

// What the closest past left is what the part found, unless that is invalid.
fn follows(rows: &[Row], cell: &Cell) -> bool {
    let Some(row) = past(rows, cell.file) else {
        return true;
    };
    match row.cell_at(cell.file) {
        Some(last) => !last.valid || last.is == cell.was,
        None => true,
    }
}

fn may_push(rows: &[Row], next: u64, row: &Row) -> bool {
    row.id == next
        && row
            .cells
            .iter()
            .all(|cell| future(rows, cell.file).is_none())
        && row.cells.iter().all(|cell| follows(rows, cell))
}

fn is_row(found: Option<&Row>, id: u64) -> bool {
    match found {
        Some(row) => row.id == id,
        None => false,
    }
}

fn may_back(rows: &[Row], row: &Row) -> bool {
    row.done
        && row.is_whole()
        && row
            .cells
            .iter()
            .all(|cell| is_row(past(rows, cell.file), row.id))
}

fn may_forward(rows: &[Row], row: &Row) -> bool {
    !row.done
        && row.is_whole()
        && row
            .cells
            .iter()
            .all(|cell| is_row(future(rows, cell.file), row.id))
}

fn may_move(rows: &[Row], id: u64, back: bool) -> bool {
    match rows.iter().find(|row| row.id == id) {
        Some(row) => {
            if back {
                may_back(rows, row)
            } else {
                may_forward(rows, row)
            }
        }
        None => false,
    }
}

fn may_split(rows: &[Row], id: u64) -> bool {
    rows.iter().any(|row| row.id == id && row.cells.len() >= 2)
}

fn has_valid(rows: &[Row], file: u8) -> bool {
    rows.iter().any(|row| row.is_valid_at(file))
}

/// Whether the step may come behind these elements, where that is the next free id.
pub fn may_come(rows: &[Row], next: u64, step: &Step) -> bool {
    match step {
        Step::Push(row) => may_push(rows, next, row),
        Step::Back(id) => may_move(rows, *id, true),
        Step::Forward(id) => may_move(rows, *id, false),
        Step::Split(id, first) => may_split(rows, *id) && *first == next,
        Step::Close(file) => rows.iter().any(|row| row.is_live_at(*file)),
        Step::Lose(file) => future(rows, *file).is_some(),
        Step::Invalidate(file) => has_valid(rows, *file),
        Step::Bump(_) => true,
        Step::Set(file) => !has_valid(rows, *file),
    }
}

/// Whether the step sets paths of the tree. One list has one such step at most.
pub fn sets_tree(step: &Step) -> bool {
    match step {
        Step::Push(_) | Step::Back(_) | Step::Forward(_) | Step::Set(_) => true,
        _ => false,
    }
}
