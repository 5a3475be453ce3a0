// Numbers that look random, and are the same in each run.

/// A generator. This project's own rule.
#[derive(Drop)]
pub struct Dice {
    state: u32,
}

impl Dice {
    pub fn new(seed: u32) -> Dice {
        Dice { state: seed }
    }

    /// A number below that of the sides, or 0 where there is none.
    pub fn roll(&mut self, sides: u32) -> u32 {
        self.state = self
            .state
            .wrapping_mul(1_664_525)
            .wrapping_add(1_013_904_223);
        match (self.state >> 8).checked_rem(sides) {
            Some(number) => number,
            None => 0,
        }
    }

    /// One of the three paths.
    pub fn file(&mut self) -> u8 {
        match self.roll(3) {
            0 => 0,
            1 => 1,
            _ => 2,
        }
    }

    /// One of the four contents.
    pub fn content(&mut self) -> u8 {
        match self.roll(4) {
            0 => 0,
            1 => 1,
            2 => 2,
            _ => 3,
        }
    }
}
