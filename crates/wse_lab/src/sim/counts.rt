// What was tried, counted.
use wse_path::Memory;

/// How many of what was tried.
#[derive(Drop)]
pub struct Counts {
    pub scripts: u64,
    pub commands: u64,
    pub moments: u64,
    pub images: u64,
    /// How many stores were opened from an image of an opening.
    pub again: u64,
    pub faults: u64,
    /// How many stores were reopened to the state behind the last answered command.
    pub before: u64,
    /// How many to the state behind the next one.
    pub after: u64,
}

fn raise(number: &mut u64) {
    *number = number.saturating_add(1);
}

impl Counts {
    pub fn new() -> Counts {
        Counts {
            scripts: 0,
            commands: 0,
            moments: 0,
            images: 0,
            again: 0,
            faults: 0,
            before: 0,
            after: 0,
        }
    }

    pub fn count_moment(&mut self) {
        raise(&mut self.moments);
    }

    pub fn count_image(&mut self) {
        raise(&mut self.images);
    }

    pub fn count_again(&mut self) {
        raise(&mut self.again);
    }

    pub fn count_fault(&mut self) {
        raise(&mut self.faults);
    }

    /// Counts a store that was reopened.
    pub fn count_reopened(&mut self, is_next: bool) {
        if is_next {
            raise(&mut self.after);
        } else {
            raise(&mut self.before);
        }
    }

    pub fn tell(&self, out: &mut String) -> Result<(), Memory> {
        write!(
            out,
            "{} scripts, {} commands\n",
            self.scripts, self.commands
        )?;
        write!(out, "{} moments, {} images, ", self.moments, self.images)?;
        write!(out, "{} of a second crash\n", self.again)?;
        write!(out, "{} failing calls\n", self.faults)?;
        write!(out, "{} reopened before the command, ", self.before)?;
        write!(out, "{} after it\n", self.after)?;
        Ok(())
    }
}
