// The history as plain values, and what a list of steps leaves of it.
use crate::after::push_after;
use crate::row::{Row, Step, copies};
use crate::rules::{may_come, sets_tree};
use std::alloc::Global;
use std::test::Fail;

/// The elements in order of making, the next free id, and whether a step of the list sets paths of the tree.
#[derive(Drop)]
pub struct World {
    pub rows: Vec<Row>,
    pub next: u64,
    pub sets: bool,
}

impl World {
    pub fn new(alloc: Global) -> World {
        World {
            rows: Vec::new(alloc),
            next: 1,
            sets: false,
        }
    }

    /// The same history, before a list.
    pub fn begin(&self, alloc: Global) -> Result<World, Fail> {
        Ok(World {
            rows: copies(alloc, self.rows.as_slice())?,
            next: self.next,
            sets: false,
        })
    }

    /// Does the step, if it may come behind those of the list so far, and answers whether it may.
    pub fn take(&mut self, alloc: Global, step: &Step) -> Result<bool, Fail> {
        if sets_tree(step) && self.sets || !may_come(self.rows.as_slice(), self.next, step) {
            return Ok(false);
        }
        let mut rows = Vec::new(alloc);
        self.next = push_after(alloc, &mut rows, self.rows.as_slice(), self.next, step)?;
        self.rows = rows;
        self.sets = self.sets || sets_tree(step);
        Ok(true)
    }

    // The elements that are live at the path: their ids, and whether they are done, and valid there.
    fn seen(&self, alloc: Global, file: u8) -> Result<Vec<(u64, bool, bool)>, Fail> {
        let mut all = Vec::new(alloc);
        for row in self.rows.iter().filter(|row| row.is_live_at(file)) {
            all.push((row.id, row.done, row.is_valid_at(file)))?;
        }
        Ok(all)
    }

    /// Whether the path's history looks the same in the other.
    pub fn is_alike(&self, other: &World, alloc: Global, file: u8) -> Result<bool, Fail> {
        let here = self.seen(alloc, file)?;
        let there = other.seen(alloc, file)?;
        Ok(here.as_slice() == there.as_slice())
    }

    /// What the elements count for: each part for 256, its label, its path and its contents.
    pub fn weight(&self) -> u64 {
        let mut sum = 0u64;
        for row in &self.rows {
            for cell in &row.cells {
                sum = sum.wrapping_add(258);
                sum = sum.wrapping_add((cell.was != 0) as u64);
                sum = sum.wrapping_add((cell.is != 0) as u64);
            }
        }
        sum
    }
}
