// How many sequences there are.
use std::alloc::Global;
use wse_path::Memory;

/// Sequences of one length.
#[derive(Clone, Copy)]
pub struct Count {
    pub sequences: u64,
    /// Those whose last command was recorded.
    pub recorded: u64,
}

/// Sequences by their length, from 1 on.
#[derive(Drop)]
pub struct Counts {
    pub lengths: Vec<Count>,
}

impl Counts {
    /// None yet, up to this length.
    pub fn new(alloc: Global, most: usize) -> Result<Counts, Memory> {
        let mut lengths = Vec::new(alloc);
        for _ in 0..most {
            lengths.push(Count {
                sequences: 0,
                recorded: 0,
            })?;
        }
        Ok(Counts { lengths })
    }

    /// One more sequence of the length.
    pub fn add(&mut self, length: usize, recorded: bool) {
        if let Some(count) = self.lengths.get_mut(length.saturating_sub(1)) {
            count.sequences = count.sequences.saturating_add(1);
            count.recorded = count.recorded.saturating_add(recorded as u64);
        }
    }
}
