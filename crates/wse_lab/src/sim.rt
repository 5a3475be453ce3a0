// Scripts that are made from a number: each is run undisturbed, then with a crash at every moment, and then with each call of
// the disk failing.
mod counts;
mod crashes;
mod dice;
mod faults;
mod lines;
mod past;
mod script;
mod stop;

use crate::sim::counts::Counts;
use crate::sim::crashes::try_crashes;
use crate::sim::dice::Dice;
use crate::sim::faults::try_faults;
use crate::sim::past::Past;
pub use crate::sim::script::Script;
use crate::sim::script::tell_script;
use crate::sim::stop::SimStop;
use std::alloc::Global;
use wse_path::Memory;

fn try_script(alloc: Global, script: &Script, counts: &mut Counts) -> Result<(), SimStop> {
    let past = Past::of(alloc, script)?;
    counts.scripts = counts.scripts.saturating_add(1);
    counts.commands = counts.commands.saturating_add(script.lines.len() as u64);
    try_crashes(alloc, &past, counts)?;
    try_faults(alloc, script, &past, counts)
}

// Tries a script, and answers whether all was as it should be; the first difference is told with the script.
fn is_tried(
    alloc: Global,
    script: &Script,
    counts: &mut Counts,
    out: &mut String,
) -> Result<bool, Memory> {
    match try_script(alloc, script, counts) {
        Ok(()) => Ok(true),
        Err(SimStop::Memory) => Err(Memory),
        Err(SimStop::Differs(what)) => {
            write!(out, "differs: {what}\n")?;
            tell_script(alloc, script, out)?;
            Ok(false)
        }
    }
}

/// Tries a script, and tells how many of what there were, or the first difference.
pub fn try_given(alloc: Global, script: &Script, out: &mut String) -> Result<(), Memory> {
    let mut counts = Counts::new();
    if is_tried(alloc, script, &mut counts, out)? {
        counts.tell(out)?;
    }
    Ok(())
}

/// Tries so many scripts that are drawn, and tells how many of what there were, or the first difference.
pub fn simulate(alloc: Global, seed: u64, count: u64, out: &mut String) -> Result<(), Memory> {
    let mut counts = Counts::new();
    let mut dice = Dice::new(seed);
    for _ in 0..count {
        let script = Script::draw(alloc, &mut dice)?;
        if !is_tried(alloc, &script, &mut counts, out)? {
            return Ok(());
        }
    }
    counts.tell(out)
}
