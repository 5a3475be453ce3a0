// Whether the stacks tell what the plain values do.
use crate::draw::{content, name};
use crate::given::path;
use crate::row::{Cell, Row, future, past};
use crate::world::World;
use std::alloc::Global;
use std::test::Fail;
use wse_element::{Element, Part};
use wse_path::Bytes;
use wse_stacks::Stacks;

fn is_content(found: Option<Bytes>, number: u8) -> bool {
    match found {
        Some(bytes) => number != 0 && bytes.as_slice() == content(number).as_bytes(),
        None => number == 0,
    }
}

fn is_cell(part: &Part, alloc: Global, cell: &Cell) -> Result<bool, Fail> {
    if part.is_live() != cell.live || part.is_valid() != cell.valid {
        return Ok(false);
    }
    Ok(is_content(part.old_bytes(alloc)?, cell.was) && is_content(part.new_bytes(alloc)?, cell.is))
}

fn are_cells(parts: &[Part], alloc: Global, cells: &[Cell]) -> Result<bool, Fail> {
    let mut at = 0;
    for part in parts {
        let Some(cell) = cells.get(at) else {
            return Ok(false);
        };
        if *part.path() != path(alloc, name(cell.file))? || !is_cell(part, alloc, cell)? {
            return Ok(false);
        }
        at = at.wrapping_add(1);
    }
    Ok(at == cells.len())
}

fn is_row(element: &Element, alloc: Global, row: &Row) -> Result<bool, Fail> {
    if element.id() != row.id || element.is_done() != row.done {
        return Ok(false);
    }
    are_cells(element.parts(), alloc, row.cells.as_slice())
}

fn are_rows(stacks: &Stacks, alloc: Global, rows: &[Row]) -> Result<bool, Fail> {
    let mut at = 0;
    for row in rows {
        match stacks.element_at(at) {
            Some(element) => {
                if !is_row(element, alloc, row)? {
                    return Ok(false);
                }
            }
            None => return Ok(false),
        }
        at = at.wrapping_add(1);
    }
    Ok(at == stacks.count())
}

fn is_id(found: Option<u64>, row: Option<&Row>) -> bool {
    match row {
        Some(row) => found == Some(row.id),
        None => found.is_none(),
    }
}

fn are_ends(stacks: &Stacks, alloc: Global, rows: &[Row], file: u8) -> Result<bool, Fail> {
    let path = path(alloc, name(file))?;
    Ok(
        is_id(stacks.closest_past(&path), past(rows, file))
            && is_id(stacks.closest_future(&path), future(rows, file)),
    )
}

fn are_all_ends(stacks: &Stacks, alloc: Global, rows: &[Row]) -> Result<bool, Fail> {
    for file in 0u8..3 {
        if !are_ends(stacks, alloc, rows, file)? {
            return Ok(false);
        }
    }
    Ok(true)
}

/// Whether they tell the same elements, ends and numbers.
pub fn is_same(stacks: &Stacks, alloc: Global, world: &World, serial: u64) -> Result<bool, Fail> {
    if stacks.next_id() != world.next || stacks.serial() != serial {
        return Ok(false);
    }
    let rows = world.rows.as_slice();
    Ok(
        stacks.weight() == world.weight()
            && are_rows(stacks, alloc, rows)?
            && are_all_ends(stacks, alloc, rows)?,
    )
}
