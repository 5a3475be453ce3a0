// The history: the stacks, the versions, the tree and the locks.
ghost use Rattle.std.specs.Prelude.{◌≡◌, ◌≢◌, ◌⊎◌, true, [], Some, None, IfOk, OnOk, OnErr};
ghost use Rattle.std.specs.Option.{unwrap_or};
ghost use Rattle.wse_path.specs.Limits.{standard};
ghost use Rattle.wse_element.specs.Linked.{IsStateLinked};
ghost use Rattle.wse_element.specs.State.{kept_of, stacks_of};
ghost use Rattle.wse_stacks.specs.Stacks.{HaveParts};
ghost use Rattle.wse_apply.specs.Limit.{are_within, limit_hit};
ghost use Rattle.wse_history.specs.History.{state_in, IsHistory};
ghost use Rattle.wse_path.specs.Versions.{version_of};
ghost use Rattle.wse_stacks.specs.Turns.{Turned};
ghost use Rattle.wse_history.specs.Planning.{entries_of, committed, PlansAs, MayRecord, MayRecordIfAny};

use crate::edits::plan_edit;
use crate::forgets::plan_forget;
use crate::looks::plan_look;
use crate::moves::plan_move;
use crate::outsides::plan_outside;
use crate::planned::Planned;
use crate::room::{Room, into_contents, make_room};
use crate::shares::{plan_leave, plan_lock, plan_unlock};
use std::alloc::Global;
use std::marker::Model;
use wse_element::Plan;
use wse_locks::Locks;
use wse_path::{Command, Limits, Memory, Tree, Versions};
use wse_stacks::Stacks;

/// What a store holds, in memory, and who holds which path. Its state is linked, and its tree passes no limit. Contracts see
/// the state, the limits, how often each path's history turned, and the plan that is reserved. This project's own.
pub struct History {
    stacks: Stacks,
    versions: Versions,
    tree: Tree,
    locks: Locks,
    limits: Limits,
    room: Option<Room>,
}

// Written out, so that who drops one takes a single step.
impl Drop for History {
    fn drop(self) {
        let History {
            stacks,
            versions,
            tree,
            locks,
            limits: _,
            room,
        } = self;
        drop(stacks);
        drop(versions);
        drop(tree);
        drop(locks);
        drop(room);
    }
}

impl Model for History {
    ghost use Rattle.wse_history.specs.History.{HistoryNow, state_in, IsHistory};
    ghost use Rattle.wse_history.specs.Reserved.{reserved_in, IsReadyIfAny};

    ghost Value = { HistoryNow };

    ghost view = { λ a. record {
      state = state_in a.stacks.state a.versions.entries a.tree.files a.locks.entries;
      limits = a.limits;
      turned = a.stacks.turned;
      reserved = reserved_in (state_in a.stacks.state a.versions.entries a.tree.files a.locks.entries) a.stacks.prepared a.room;
    } };

    ghost invariant = { λ a.
        IsHistory (state_in a.stacks.state a.versions.entries a.tree.files a.locks.entries) a.limits
        × IsReadyIfAny a.limits (state_in a.stacks.state a.versions.entries a.tree.files a.locks.entries) a.stacks.prepared a.tree.spare a.versions.spare a.room };
}

/// Puts these locks in the place of the others, if any are given.
fn set_locks(locks: &mut Locks, new: Option<Locks>)
    ensures { locks.new.entries ≡ unwrap_or (entries_of new) locks.old.entries }
{
    if let Some(new) = new {
        *locks = new;
    }
}

impl History {
    /// The history of a state that is linked, without locks.
    pub fn new(
        alloc: Global,
        stacks: Stacks,
        versions: Versions,
        tree: Tree,
        limits: Limits,
    ) -> History
        requires linked { IsStateLinked (state_in stacks.state versions.entries tree.files []) }
        requires parts { HaveParts stacks.state.records }
        requires within { are_within limits standard ≡ true }
        requires fits { limit_hit limits tree.files ≡ None }
        ensures state { result.state ≡ state_in stacks.state versions.entries tree.files [] }
        ensures limits { result.limits ≡ limits }
        ensures turns { result.turned ≡ stacks.turned }
        ensures reserved { result.reserved ≡ None }
    {
        History {
            stacks,
            versions,
            tree,
            locks: Locks::new(alloc),
            limits,
            room: None,
        }
    }

    /// The elements, the next free id and the serial number, and how often each path's history turned. Takes no memory.
    pub fn stacks(&self) -> &Stacks
        ensures state { result.now.state ≡ stacks_of (kept_of self.now.state) }
        ensures turns { result.now.turned ≡ self.now.turned }
    {
        &self.stacks
    }

    /// The versions of the paths. Takes no memory.
    pub fn versions(&self) -> &Versions
        ensures { result.now.entries ≡ self.now.state.versions }
    {
        &self.versions
    }

    /// The tree. Takes no memory.
    pub fn tree(&self) -> &Tree
        ensures { result.now.files ≡ self.now.state.files }
    {
        &self.tree
    }

    /// Who holds which path. Takes no memory.
    pub fn locks(&self) -> &Locks
        ensures { result.now.entries ≡ self.now.state.locks }
    {
        &self.locks
    }

    /// What the command is going to do, and its answer. Nothing changes.
    pub fn plan(&self, alloc: Global, command: &Command) -> Result<Planned, Memory>
        ensures planned { IfOk result (PlansAs self.now.limits self.now.state command.now) }
        ensures may { IfOk result (λ planned. MayRecordIfAny self.now.limits self.now.state planned.plan) }
    {
        match command {
            Command::Edit { by, edit } => plan_edit(alloc, self, *by, edit),
            Command::Move {
                by,
                direction,
                path,
                choice,
            } => plan_move(alloc, self, *by, *direction, path, choice),
            Command::Lock { by, files } => plan_lock(alloc, self, *by, files),
            Command::Unlock { by, files } => plan_unlock(alloc, self, *by, files),
            Command::Leave { by } => plan_leave(alloc, self, *by),
            Command::Outside { path, content } => plan_outside(alloc, self, path, content),
            Command::Forget { path } => plan_forget(alloc, self, path),
            Command::Look { path } => plan_look(alloc, self, path),
        }
    }

    /// Takes all memory that the plan needs, which is one that `plan` gave of this state, and no memory for any other. After
    /// Memory no plan is reserved. All else stays, but that room may have been made.
    pub fn reserve(&mut self, alloc: Global, plan: &Plan) -> Result<(), Memory>
        requires may { MayRecord self.old.limits self.old.state plan.now }
        ensures reserved { OnOk result (self.new.reserved ≡ Some plan.now) }
        ensures none { OnErr result (self.new.reserved ≡ None) }
        ensures state { self.new.state ≡ self.old.state }
        ensures limits { self.new.limits ≡ self.old.limits }
        ensures turns { self.new.turned ≡ self.old.turned }
    {
        self.room = None;
        let effects = plan.effects.as_slice();
        let room = make_room(alloc, plan.changes.len(), effects)?;
        self.tree.reserve(plan.changes.len())?;
        self.versions.reserve(effects.len())?;
        match self.stacks.reserve(alloc, effects) {
            Ok(()) => {
                self.room = Some(room);
                Ok(())
            }
            // All effects are applicable, so that memory was missing.
            Err(_) => Err(Memory),
        }
    }

    /// Does what the plan says, and has these locks from then on, if any are given. The plan is the one that is reserved, or
    /// changes nothing. Takes no memory. Then no plan is reserved. The history of a path turns once, if after the plan its
    /// past or its future is another list of ids, or another part there is valid.
    pub fn commit(&mut self, plan: Plan, locks: Option<Locks>)
        requires ready { (self.old.reserved ≡ Some plan) ⊎ ((plan.effects ≡ []) × (plan.changes ≡ [])) }
        ensures state { self.new.state ≡ committed self.old.state plan (entries_of locks) }
        ensures limits { self.new.limits ≡ self.old.limits }
        ensures turns { plan.effects ≢ [] → Turned self.old.state.records self.new.state.records (version_of self.old.turned) (version_of self.new.turned) }
        ensures still { plan.effects ≡ [] → self.new.turned ≡ self.old.turned }
        ensures reserved { self.new.reserved ≡ None }
    {
        let Plan { effects, changes } = plan;
        let room = self.room.take();
        set_locks(&mut self.locks, locks);
        if effects.is_empty() {
            return;
        }
        match room {
            Some(Room { contents, bumps }) => {
                self.stacks.apply(effects);
                self.tree
                    .set_all(into_contents(changes.into_vec(), contents));
                self.versions.bump_all(bumps);
            }
            None => unreachable!(),
        }
    }

    /// The limits, which the state keeps within. Takes no memory.
    pub fn limits(&self) -> &Limits
        ensures limits { result.now ≡ self.now.limits }
        ensures kept { IsHistory self.now.state self.now.limits }
    {
        &self.limits
    }
}
