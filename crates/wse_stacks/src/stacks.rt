// The stacks of the history.
ghost use Rattle.std.specs.Prelude.{◌≡◌, ◌≢◌, ℕ, [], length, true, Some, None, option_map, slice_get, IfOk, IfErr, OnOk, OnErr};
ghost use Rattle.std.specs.Option.{option_copied};
ghost use Rattle.std.specs.List.{All, list_any};
ghost use Rattle.wse_path.specs.Path.{Path};
ghost use Rattle.wse_path.specs.PathMap.{capped};
ghost use Rattle.wse_element.specs.Live.{is_valid_at};
ghost use Rattle.wse_element.specs.Stacks.{closest_past, closest_future, record_of};
ghost use Rattle.wse_element.specs.Effects.{contents_set, left_by};
ghost use Rattle.wse_element.specs.Numbers.{is_bounded};
ghost use Rattle.wse_element.specs.Linked.{IsLinked};
ghost use Rattle.wse_element.specs.Applicable.{AreApplicable};
ghost use Rattle.wse_element.specs.Weight.{weight};
ghost use Rattle.wse_stacks.specs.Image.{IsSmall};
ghost use Rattle.wse_stacks.specs.Paths.{AreLivePaths};
ghost use Rattle.wse_stacks.specs.Refused.{TellsUnlinked, IsUnlinked, TellsRefused};
ghost use Rattle.wse_stacks.specs.Stacks.{HaveParts};
ghost use Rattle.wse_stacks.specs.Turns.{Turned};

use crate::draft::is_bounded;
use crate::link::link;
use crate::paths::live_paths;
use crate::prepare::prepare;
use crate::prepared::Prepared;
use crate::records::Records;
use crate::refused::{ReserveRefused, StacksRefused};
use crate::search::{closest_future, closest_past, is_valid_at, record_of};
use crate::sets::contents_set;
use crate::weigh::weight_after;
use std::alloc::Global;
use std::marker::Model;
use wse_element::{Effect, Effects, Element, Elements};
use wse_path::{Bytes, Files, Memory, RelPath, Versions};

/// The past and the future of each path, read from one list of elements in order of making, which fit one another. This
/// project's own rule. Contracts see the list, the next free id and the serial number, how often each path's history turned,
/// and which list of effects is prepared.
pub struct Stacks {
    records: Records,
    next_id: u64,
    serial: u64,
    turned: Versions,
    prepared: Option<Prepared>,
}

// Written out, so that who drops one takes a single step.
impl Drop for Stacks {
    fn drop(self) {
        let Stacks {
            records,
            next_id: _,
            serial: _,
            turned,
            prepared,
        } = self;
        drop(records);
        drop(turned);
        drop(prepared);
    }
}

impl Model for Stacks {
    ghost use Rattle.std.specs.Prelude.{option_map};
    ghost use Rattle.wse_stacks.specs.Stacks.{StacksNow};
    ghost use Rattle.wse_stacks.specs.Prepared.{AreStacks};

    ghost Value = { StacksNow };

    ghost view = { λ a. record {
      state = record { records = a.records; next_id = a.next_id; serial = a.serial };
      turned = a.turned.entries;
      prepared = option_map (λ p. p.effects) a.prepared;
    } };

    ghost invariant = { λ a. AreStacks (record { records = a.records; next_id = a.next_id; serial = a.serial }) a.turned a.prepared };
}

impl Stacks {
    ghost use Rattle.wse_stacks.specs.Stacks.{turns};

    /// The stacks of these elements, in order of making, with the next free id, and how many commands were recorded. No path's
    /// history has turned yet, and nothing is prepared.
    pub fn from_elements(
        alloc: Global,
        elements: Elements,
        next_id: u64,
        serial: u64,
    ) -> Result<Stacks, StacksRefused>
        ensures state { IfOk result (λ stacks. stacks.state ≡ record { records = elements; next_id = next_id; serial = serial }) }
        ensures linked { OnOk result (IsLinked next_id elements) }
        ensures bounded { OnOk result (is_bounded (record { records = elements; next_id = next_id; serial = serial }) ≡ true) }
        ensures turns { IfOk result (λ stacks. (p : Path) → turns stacks p ≡ 0) }
        ensures prepared { IfOk result (λ stacks. stacks.prepared ≡ None) }
        ensures refused { IfErr result (TellsUnlinked (record { records = elements; next_id = next_id; serial = serial })) }
        ensures unlinked { IfErr result (IsUnlinked (record { records = elements; next_id = next_id; serial = serial })) }
    {
        let mut records = Records::new(alloc);
        if let Some(index) = link(&mut records, alloc, elements, next_id)? {
            return Err(StacksRefused::NotLinked { index });
        }
        if !is_bounded(&records, next_id, serial) {
            let index = records.as_slice().len();
            return Err(StacksRefused::NotLinked { index });
        }
        records.rule();
        Ok(Stacks {
            records,
            next_id,
            serial,
            turned: Versions::new(alloc),
            prepared: None,
        })
    }

    /// The id of the path's closest past: the last element that is done and live there. Takes no memory.
    pub fn closest_past(&self, path: &RelPath) -> Option<u64>
        ensures { result ≡ option_map (λ r. r.id) (closest_past self.now.state.records path.now) }
    {
        match closest_past(self.records.as_slice(), path) {
            Some(element) => Some(element.id()),
            None => None,
        }
    }

    /// The id of the path's closest future: the first element that isn't done and is live there. Takes no memory.
    pub fn closest_future(&self, path: &RelPath) -> Option<u64>
        ensures { result ≡ option_map (λ r. r.id) (closest_future self.now.state.records path.now) }
    {
        match closest_future(self.records.as_slice(), path) {
            Some(element) => Some(element.id()),
            None => None,
        }
    }

    /// The element with the id. Takes no memory.
    pub fn element(&self, id: u64) -> Option<&Element>
        ensures { option_copied result ≡ record_of self.now.state.records id }
    {
        record_of(self.records.as_slice(), id)
    }

    /// The element with that index in order of making. Takes no memory.
    pub fn element_at(&self, index: usize) -> Option<&Element>
        ensures { option_copied result ≡ slice_get self.now.state.records index }
    {
        match self.records.as_slice().get(index) {
            Some(entry) => Some(entry.element()),
            None => None,
        }
    }

    /// The number of elements, which are linked, and whose numbers are within their bounds.
    pub fn count(&self) -> usize
        ensures count { result ≡ length self.now.state.records }
        ensures linked { IsLinked self.now.state.next_id self.now.state.records }
        ensures bounded { is_bounded self.now.state ≡ true }
        ensures parts { HaveParts self.now.state.records }
    {
        self.records.as_slice().len()
    }

    /// How many commands were recorded.
    pub fn serial(&self) -> u64
        ensures { result ≡ self.now.state.serial }
    {
        self.serial
    }

    /// The next free id.
    pub fn next_id(&self) -> u64
        ensures { result ≡ self.now.state.next_id }
    {
        self.next_id
    }

    /// What all elements count for. Takes no memory.
    pub fn weight(&self) -> u64
        ensures { result ≡ weight self.now.state.records }
    {
        self.records.weight()
    }

    /// What all elements will count for after these effects, or 2^64-1 where that is greater. It looks into the effects, and
    /// into the elements from which one of them may take.
    pub fn weight_after(&self, alloc: Global, effects: &[Effect]) -> Result<u64, Memory>
        requires small { All IsSmall effects.now }
        ensures { IfOk result (λ w. w ≡ capped (weight (left_by effects.now self.now.state).records)) }
    {
        weight_after(&self.records, alloc, effects)
    }

    /// Whether a live part at the path is valid. Takes no memory.
    pub fn is_valid_at(&self, path: &RelPath) -> bool
        ensures { result ≡ list_any (is_valid_at path.now) self.now.state.records }
    {
        is_valid_at(self.records.as_slice(), path)
    }

    /// How often the path's history turned. Takes no memory.
    pub fn turns(&self, path: &RelPath) -> u64
        ensures { result ≡ turns self.now path.now }
    {
        self.turned.get(path) as u64
    }

    /// The paths at which an element is live, in path order.
    pub fn paths(&self, alloc: Global) -> Result<Files, Memory>
        ensures { IfOk result (AreLivePaths self.now.state.records) }
    {
        live_paths(self.records.as_slice(), alloc)
    }

    /// The paths that the effect sets in the tree, each with the content that it has then. None: no file is there then.
    pub fn contents_set(
        &self,
        alloc: Global,
        effect: &Effect,
    ) -> Result<Vec<(RelPath, Option<Bytes>)>, Memory>
        ensures { IfOk result (λ set. set.items ≡ contents_set self.now.state.records effect.now) }
    {
        contents_set(self.records.as_slice(), alloc, effect)
    }

    /// Prepares all memory for this list of effects, which are those of one command, and for no other list. After a refusal
    /// no list is prepared. All else stays.
    pub fn reserve(&mut self, alloc: Global, effects: &[Effect]) -> Result<(), ReserveRefused>
        requires some { effects.now ≢ [] }
        ensures prepared { OnOk result (self.new.prepared ≡ Some effects.now) }
        ensures applicable { OnOk result (AreApplicable self.old.state effects.now) }
        ensures refused { IfErr result (TellsRefused self.old.state effects.now) }
        ensures none { OnErr result (self.new.prepared ≡ None) }
        ensures state { self.new.state ≡ self.old.state }
        ensures turns { self.new.turned ≡ self.old.turned }
    {
        self.prepared = None;
        let prepared = prepare(&self.records, self.next_id, self.serial, alloc, effects)?;
        self.turned.reserve(prepared.turned.len())?;
        self.prepared = Some(prepared);
        Ok(())
    }

    /// Does the prepared effects. Takes no memory. Then none are prepared. The history of a path turns once, if after the
    /// list its past or its future is another list of ids, or another part there is valid.
    pub fn apply(&mut self, effects: Effects)
        requires { self.old.prepared ≡ Some effects }
        ensures state { self.new.state ≡ left_by effects self.old.state }
        ensures turns { Turned self.old.state.records self.new.state.records (turns self.old) (turns self.new) }
        ensures prepared { self.new.prepared ≡ None }
    {
        let _ = effects;
        match self.prepared.take() {
            Some(prepared) => {
                self.records = prepared.records;
                self.next_id = prepared.next_id;
                self.serial += 1;
                self.turned.bump_all(prepared.turned);
            }
            None => unreachable!(),
        }
    }
}
