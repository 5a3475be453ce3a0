// The steps of a script, done one after the other.
use crate::deeds::{on_disk, on_store};
use crate::disks::{crashed, failing};
use crate::refused::tell_refused;
use crate::sim::{Script, simulate, try_given};
use crate::stage::{Stage, disk_over};
use crate::step::{Deed, Step};
use crate::steps::step_of;
use crate::told::push_calls;
use std::alloc::Global;
use wse_path::{Limits, Memory, Tree};

/// A script's disk or store, in the middle of it.
#[derive(Drop)]
pub struct Lab {
    stage: Stage,
    limits: Limits,
    // How many of the disk's calls were told.
    told: usize,
}

fn do_deed(
    alloc: Global,
    stage: Stage,
    limits: Limits,
    deed: Deed,
    out: &mut String,
) -> Result<Stage, Memory> {
    match stage {
        Stage::Stopped(disk) => on_disk(alloc, disk, limits, deed, out),
        Stage::Open(store) => on_store(alloc, store, deed, out),
    }
}

fn fail(alloc: Global, stage: Stage, numbers: &[u64]) -> Result<Stage, Memory> {
    Ok(Stage::Stopped(failing(alloc, stage.into_disk(), numbers)?))
}

fn crash(
    stage: Stage,
    moment: Option<u64>,
    choice: u64,
    out: &mut String,
) -> Result<Stage, Memory> {
    let now = stage.disk().disk.calls().len() as u64;
    let moment = moment.unwrap_or(now);
    match crashed(stage.disk(), moment, choice)? {
        Some(disk) => {
            write!(out, "crash at {moment} of {now} by {choice}\n")?;
            Ok(Stage::Stopped(disk))
        }
        None => {
            write!(out, "refused: the last moment is {now}\n")?;
            Ok(stage)
        }
    }
}

fn tell_calls(alloc: Global, stage: Stage, told: usize, out: &mut String) -> Result<Stage, Memory> {
    if let Some(calls) = stage.disk().disk.calls().get(told..) {
        push_calls(alloc, out, calls)?;
    }
    Ok(stage)
}

impl Lab {
    /// An empty disk, and the limits of the program.
    pub fn new(alloc: Global) -> Lab {
        Lab::over(alloc, Tree::new(alloc), Limits::standard())
    }

    fn over(alloc: Global, tree: Tree, limits: Limits) -> Lab {
        Lab {
            stage: Stage::Stopped(disk_over(alloc, tree, Vec::new(alloc))),
            limits,
            told: 0,
        }
    }

    // What comes of a step behind which all calls so far count as told.
    fn at(stage: Stage, limits: Limits) -> Lab {
        let told = stage.disk().disk.calls().len();
        Lab {
            stage,
            limits,
            told,
        }
    }

    fn step(self, alloc: Global, step: Step, out: &mut String) -> Result<Lab, Memory> {
        let Lab {
            stage,
            limits,
            told,
        } = self;
        match step {
            Step::Tree { tree, limits } => Ok(Lab::over(alloc, tree, limits)),
            Step::Fail { numbers } => Ok(Lab::at(fail(alloc, stage, &numbers)?, limits)),
            Step::Crash { moment, choice } => {
                Ok(Lab::at(crash(stage, moment, choice, out)?, limits))
            }
            Step::Calls => Ok(Lab::at(tell_calls(alloc, stage, told, out)?, limits)),
            Step::Try { tree, lines } => {
                try_given(alloc, &Script { tree, lines }, out)?;
                Ok(Lab {
                    stage,
                    limits,
                    told,
                })
            }
            Step::Sim { seed, count } => {
                simulate(alloc, seed, count, out)?;
                Ok(Lab {
                    stage,
                    limits,
                    told,
                })
            }
            Step::Do(deed) => Ok(Lab {
                stage: do_deed(alloc, stage, limits, deed, out)?,
                limits,
                told,
            }),
        }
    }

    /// Does what a line says, and tells what comes of it. A line that begins with `#` is a heading, and an empty one nothing.
    pub fn line(self, alloc: Global, line: &str, out: &mut String) -> Result<Lab, Memory> {
        if line.is_empty() || line.starts_with('#') {
            out.push_str(line)?;
            out.push('\n')?;
            return Ok(self);
        }
        match step_of(alloc, line) {
            Ok(step) => self.step(alloc, step, out),
            Err(why) => {
                tell_refused(out, why)?;
                Ok(self)
            }
        }
    }
}
