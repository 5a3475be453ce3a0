// The history as plain values: elements over three paths, whose contents have one byte at most.
use std::alloc::Global;
use std::test::Fail;

/// A part. The content 0 is no file.
#[derive(Clone, Copy)]
pub struct Cell {
    pub file: u8,
    pub live: bool,
    pub valid: bool,
    pub was: u8,
    pub is: u8,
}

/// An element.
#[derive(Drop)]
pub struct Row {
    pub id: u64,
    pub done: bool,
    pub cells: Vec<Cell>,
}

/// An effect.
#[derive(Drop)]
pub enum Step {
    Push(Row),
    Back(u64),
    Forward(u64),
    Split(u64, u64),
    Close(u8),
    Lose(u8),
    Invalidate(u8),
    Bump(u8),
    Set(u8),
}

impl Row {
    /// The live part at the path.
    pub fn cell_at(&self, file: u8) -> Option<&Cell> {
        self.cells
            .iter()
            .find(|cell| cell.live && cell.file == file)
    }

    pub fn is_live_at(&self, file: u8) -> bool {
        self.cell_at(file).is_some()
    }

    pub fn is_valid_at(&self, file: u8) -> bool {
        match self.cell_at(file) {
            Some(cell) => cell.valid,
            None => false,
        }
    }

    pub fn is_whole(&self) -> bool {
        self.cells.iter().all(|cell| cell.live && cell.valid)
    }
}

/// An equal row.
pub fn copy(alloc: Global, row: &Row) -> Result<Row, Fail> {
    let mut cells = Vec::new(alloc);
    for cell in &row.cells {
        cells.push(*cell)?;
    }
    Ok(Row {
        id: row.id,
        done: row.done,
        cells,
    })
}

/// Equal rows.
pub fn copies(alloc: Global, rows: &[Row]) -> Result<Vec<Row>, Fail> {
    let mut all = Vec::new(alloc);
    for row in rows {
        all.push(copy(alloc, row)?)?;
    }
    Ok(all)
}

/// The closest past of the path.
pub fn past(rows: &[Row], file: u8) -> Option<&Row> {
    rows.iter()
        .rev()
        .find(|row| row.done && row.is_live_at(file))
}

/// The closest future of the path.
pub fn future(rows: &[Row], file: u8) -> Option<&Row> {
    rows.iter().find(|row| !row.done && row.is_live_at(file))
}
