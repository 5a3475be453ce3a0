// Opening a store as an engine.
ghost use Rattle.std.specs.Prelude.{◌≡◌, ◌≤◌, true, None, [], IfOk, IfErr};
ghost use Rattle.wse_path.specs.Limits.{standard};
ghost use Rattle.wse_apply.specs.Limit.{are_within, limit_hit};
ghost use Rattle.wse_element.specs.State.{State};
ghost use Rattle.wse_element.specs.Linked.{IsStateLinked};
ghost use Rattle.wse_disk.specs.Told.{WhereTold, reading_of};
ghost use Rattle.wse_txn.specs.Outcomes.{TellsAsBefore};
ghost use Rattle.wse_txn.specs.Stands.{StandsFor};
ghost use Rattle.wse_recover.specs.Open.{IsOpened, AdoptsWithin, RefusesOpen};
ghost use Rattle.wse_engine.specs.Engine.{IsEngine};
ghost use Rattle.wse_engine.specs.Start.{disk_started, LeavesStart, StartKeeps};

use crate::engine::Engine;
use std::alloc::Global;
use wse_disk::Disk;
use wse_history::History;
use wse_path::Limits;
use wse_recover::{OpenFault, Opened, open_store};

impl<D: Disk> Engine<D> {
    /// Opens the store on the disk: the engine of the state for which the disk stands, without locks. A last record that isn't
    /// settled is finished. With `adopt` the paths at which the tree isn't as the elements say are taken as they are.
    ///
    /// However it ends, a crash at any moment leaves what a crash at the start might have left, or the same state; or with
    /// `adopt`, where it answers Ok or that the disk failed, the adopted one. This project's own rule.
    pub fn start(
        alloc: Global,
        disk: D,
        adopt: bool,
        limits: Limits,
    ) -> Result<Engine<D>, OpenFault<D>>
        requires within { are_within limits standard ≡ true }
        ensures opened { IfOk result (λ engine. WhereTold (D.told disk) (λ t. IsOpened adopt engine.state t.reading)) }
        ensures adopts { IfOk result (λ engine. WhereTold (D.told disk) (λ t. AdoptsWithin limits engine.state t.reading)) }
        ensures limits { IfOk result (λ engine. engine.limits ≡ limits) }
        ensures unlocked { IfOk result (λ engine. engine.state.locks ≡ []) }
        ensures linked { IfOk result (λ engine. IsStateLinked engine.state) }
        ensures fits { IfOk result (λ engine. limit_hit limits engine.state.files ≡ None) }
        ensures stands { IfOk result (λ engine. IsEngine (D.told engine.disk) engine.area engine.gate engine.state) }
        ensures tells { IfOk result (λ engine. TellsAsBefore (D.told disk) (D.told engine.disk)) }
        ensures during { (s : State) → StandsFor s (reading_of (D.told disk)) → LeavesStart adopt D.told disk s result }
        ensures refused { IfErr result (RefusesOpen D.told D.faults adopt limits disk) }
        ensures later { D.moment_of disk ≤ D.moment_of (disk_started result) }
        ensures kept { StartKeeps D.faults disk result }
    {
        match open_store(alloc, disk, adopt, &limits) {
            Ok(
                Opened {
                    idle,
                    stacks,
                    versions,
                    tree,
                },
            ) => {
                let history = History::new(alloc, stacks, versions, tree, limits);
                Ok(Engine::of(idle, history))
            }
            Err(fault) => Err(fault),
        }
    }
}
