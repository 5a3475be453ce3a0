// Numbers that look random, and are the same in each run.

/// A generator. This project's own rule.
#[derive(Drop)]
pub struct Dice {
    state: u64,
}

impl Dice {
    pub fn new(seed: u64) -> Dice {
        Dice { state: seed }
    }

    /// A number below that of the sides, or 0 where there is none.
    pub fn roll(&mut self, sides: u64) -> u64 {
        self.state = self
            .state
            .wrapping_mul(6_364_136_223_846_793_005)
            .wrapping_add(1_442_695_040_888_963_407);
        match (self.state >> 33).checked_rem(sides) {
            Some(number) => number,
            None => 0,
        }
    }
}
