// One command.
ghost use Rattle.std.specs.Prelude.{◌≡◌, ◌≢◌, [], IfOk, IfErr};
ghost use Rattle.wse_disk.specs.Told.{WhereTold, IsTold, IsAtRest};
ghost use Rattle.wse_txn.specs.Command.{StandsForOneOf};
ghost use Rattle.wse_txn.specs.Outcomes.{FailsByFault, KeepsMoments, Leaves, TellsAsBefore};
ghost use Rattle.wse_txn.specs.Stands.{StandsFor};
ghost use Rattle.wse_history.specs.Step.{step};
ghost use Rattle.wse_history.specs.Planning.{MayRecord, committed, entries_of};
ghost use Rattle.wse_engine.specs.Engine.{IsEngine};
ghost use Rattle.wse_engine.specs.Exec.{outcome_in, IsStep, FailsExec, ExecLeaves, ExecGoesOn, ExecKeeps};
ghost use Rattle.wse_engine.specs.Doing.{MayBeWritten, HasEntered, HasDone};

use crate::engine::{Engine, ExecFault};
use std::alloc::Global;
use wse_disk::Disk;
use wse_element::Plan;
use wse_history::{Answer, History, Planned};
use wse_locks::Locks;
use wse_path::Command;
use wse_txn::{DraftRefused, Drafted, write};

// Writes the drafted record, and enters what it says.
fn written<D: Disk>(
    drafted: Drafted<D>,
    mut history: History,
    locks: Option<Locks>,
) -> Result<Engine<D>, D>
    requires { MayBeWritten (D.told drafted.disk) drafted history }
    ensures entered { IfOk result (HasEntered drafted.plan (entries_of locks) history) }
    ensures during { IsTold (D.told drafted.disk) → Leaves D.told (λ engine. engine.disk) drafted.disk result
        (StandsForOneOf history.state (committed history.state drafted.plan (entries_of locks))) }
    ensures stands { IfOk result (λ engine. IsEngine (D.told engine.disk) engine.area engine.gate engine.state) }
    ensures tells { IfOk result (λ engine. TellsAsBefore (D.told drafted.disk) (D.told engine.disk)) }
    ensures later { KeepsMoments D.moment_of (λ engine. engine.disk) drafted.disk result }
    ensures cause { FailsByFault D.faults (λ engine. engine.disk) drafted.disk result }
{
    match write(drafted) {
        Ok((idle, plan)) => {
            history.commit(plan, locks);
            Ok(Engine::of(idle, history))
        }
        Err(disk) => Err(disk),
    }
}

impl<D: Disk> Engine<D> {
    // Does a plan that records nothing. It makes no call of the disk.
    fn unrecorded(self, plan: Plan, locks: Option<Locks>) -> Engine<D>
        requires none { plan.effects ≡ [] }
        requires unchanged { plan.changes ≡ [] }
        ensures done { HasDone plan (entries_of locks) self result }
        ensures disk { result.disk ≡ self.disk }
        ensures stands { IsEngine (D.told result.disk) result.area result.gate result.state }
    {
        let Engine { idle, mut history } = self;
        history.commit(plan, locks);
        Engine::of(idle, history)
    }

    // Does a plan that records something: takes all memory first, and then writes.
    fn recorded(
        self,
        alloc: Global,
        plan: Plan,
        locks: Option<Locks>,
    ) -> Result<Engine<D>, ExecFault<D>>
        requires some { plan.effects ≢ [] }
        requires may { MayRecord self.limits self.state plan }
        ensures done { IfOk result (HasDone plan (entries_of locks) self) }
        ensures during { IsTold (D.told self.disk) → ExecLeaves D.told (λ engine. engine.disk) self.disk result
            (StandsForOneOf self.state (committed self.state plan (entries_of locks))) }
        ensures stands { IfOk result (λ engine. IsEngine (D.told engine.disk) engine.area engine.gate engine.state) }
        ensures tells { IfOk result (λ engine. TellsAsBefore (D.told self.disk) (D.told engine.disk)) }
        ensures failed { IfErr result (FailsExec D.faults self) }
        ensures later { ExecGoesOn D.moment_of (λ engine. engine.disk) self.disk result }
        ensures kept { ExecKeeps D.faults (λ engine. engine.disk) self.disk result }
    {
        let Engine { idle, mut history } = self;
        let Ok(()) = history.reserve(alloc, &plan) else {
            return Err(ExecFault::Memory(Engine::of(idle, history)));
        };
        match idle.draft(alloc, plan) {
            Ok(drafted) => match written(drafted, history, locks) {
                Ok(engine) => Ok(engine),
                Err(disk) => Err(ExecFault::Disk(disk)),
            },
            Err(DraftRefused::Memory(idle)) => Err(ExecFault::Memory(Engine::of(idle, history))),
        }
    }

    /// Does one command. All memory is taken before the first call of the disk, and a command that records nothing makes none.
    ///
    /// A crash at any moment leaves a disk that stands for the state before the command or for the one after it, where the
    /// disk fails too. This project's own rule.
    pub fn exec(self, alloc: Global, command: &Command) -> Result<(Engine<D>, Answer), ExecFault<D>>
        ensures step { IfOk result (λ done. IsStep self command.now done.0 done.1) }
        ensures stands { IfOk result (λ done. WhereTold (D.told done.0.disk) (λ t. StandsFor done.0.state t.reading)) }
        ensures rests { IfOk result (λ done. IsAtRest (D.told done.0.disk)) }
        ensures tells { IfOk result (λ done. TellsAsBefore (D.told self.disk) (D.told done.0.disk)) }
        ensures untouched { (outcome_in self command.now).effects ≡ [] → IfOk result (λ done. done.0.disk ≡ self.disk) }
        ensures during { IsTold (D.told self.disk) → ExecLeaves D.told (λ done. done.0.disk) self.disk result
            (StandsForOneOf self.state (step self.limits self.state command.now)) }
        ensures failed { IfErr result (FailsExec D.faults self) }
        ensures later { ExecGoesOn D.moment_of (λ done. done.0.disk) self.disk result }
        ensures kept { ExecKeeps D.faults (λ done. done.0.disk) self.disk result }
    {
        let Planned {
            plan,
            locks,
            answer,
        } = match self.history.plan(alloc, command) {
            Ok(planned) => planned,
            Err(_) => return Err(ExecFault::Memory(self)),
        };
        if plan.effects.as_slice().is_empty() {
            return Ok((self.unrecorded(plan, locks), answer));
        }
        match self.recorded(alloc, plan, locks) {
            Ok(engine) => Ok((engine, answer)),
            Err(fault) => Err(fault),
        }
    }
}
