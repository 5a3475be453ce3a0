// A list of effects that is tried one by one.
ghost use Rattle.std.specs.Prelude.{◌≡◌, ◌+◌, ◌^◌, ◌<◌, ◌≤◌, true, OnOk, IfOk, length, not, ◌&&◌, Some, None};
ghost use Rattle.std.specs.Option.{option_map_or};
ghost use Rattle.wse_path.specs.PathMap.{capped};
ghost use Rattle.wse_element.specs.Effects.{ids_taken, after};
ghost use Rattle.wse_element.specs.Numbers.{is_bounded};
ghost use Rattle.wse_element.specs.Applicable.{sets_tree, may_come};

use crate::entry::Entry;
use crate::image::enact;
use crate::may::may_come;
use crate::records::Records;
use crate::search::record_of;
use crate::touched::push_touched;
use std::alloc::Global;
use std::marker::Model;
use wse_element::Effect;
use wse_path::{Memory, RelPath};

// How many commands a store records at most, how many ids each may take, and what all elements count for at most.
const MAX_SERIAL: u64 = (1 << 30) - 1;

const MAX_IDS: u64 = 1 << 32;

const MAX_WEIGHT: u64 = 1 << 29;

/// What the effects so far leave, and the paths whose history they may have changed.
#[derive(Drop)]
pub(crate) struct Draft {
    records: Records,
    next_id: u64,
    // With the command counted.
    serial: u64,
    // Whether one of the effects sets paths of the tree.
    sets: bool,
    touched: Vec<RelPath>,
}

impl Model for Draft {
    ghost use Rattle.wse_stacks.specs.Draft.{DraftState};

    ghost Value = { DraftState };

    ghost view = { λ a. record {
      state = record { records = a.records; next_id = a.next_id; serial = a.serial };
      sets = a.sets;
      touched = a.touched.items;
    } };
}

/// Whether the effect sets paths of the tree.
fn sets_tree(effect: &Effect) -> bool
    ensures { result ≡ sets_tree effect.now }
{
    match effect {
        Effect::Push(_)
        | Effect::MoveBack { .. }
        | Effect::MoveForward { .. }
        | Effect::Set { .. } => true,
        Effect::Split { .. }
        | Effect::Drop { .. }
        | Effect::Invalidate { .. }
        | Effect::Bump { .. } => false,
    }
}

/// How many ids the effect takes.
fn ids_taken(entries: &[Entry], effect: &Effect) -> u64
    ensures { result ≡ ids_taken entries.now effect.now }
{
    match effect {
        Effect::Push(_) => 1,
        Effect::Split { id, .. } => match record_of(entries, *id) {
            Some(element) => element.live_count() as u64,
            None => 0,
        },
        _ => 0,
    }
}

/// Whether the numbers are within their bounds.
pub(crate) fn is_bounded(records: &Records, next_id: u64, serial: u64) -> bool
    ensures { result ≡ is_bounded (record { records = records.now; next_id = next_id; serial = serial }) }
{
    if serial > MAX_SERIAL {
        return false;
    }
    1 <= next_id && next_id <= 1 + serial * MAX_IDS && records.weight() <= MAX_WEIGHT
}

impl Draft {
    ghost use Rattle.wse_element.specs.Laws.{PushesParts};
    ghost use Rattle.wse_stacks.specs.Draft.{begun_draft, next_draft, is_next};

    /// No effect is done yet, but the command is counted.
    pub(crate) fn begin(
        alloc: Global,
        records: &Records,
        next_id: u64,
        serial: u64,
    ) -> Result<Draft, Memory>
        requires { serial < 2 ^ 30 }
        ensures { IfOk result (λ draft. draft ≡ begun_draft (record { records = records.now; next_id = next_id; serial = serial })) }
    {
        Ok(Draft {
            records: records.share(alloc)?,
            next_id,
            serial: serial + 1,
            sets: false,
            touched: Vec::new(alloc),
        })
    }

    /// The elements.
    pub(crate) fn entries(&self) -> &[Entry]
        ensures { result.now ≡ self.now.state.records }
    {
        self.records.as_slice()
    }

    /// The paths whose history may have changed.
    pub(crate) fn touched(&self) -> &[RelPath]
        ensures { result.now ≡ self.now.touched }
    {
        &self.touched
    }

    /// The elements and the next free id.
    pub(crate) fn finish(self) -> (Records, u64)
        ensures { result ≡ (self.state.records, self.state.next_id) }
    {
        let Draft {
            records,
            next_id,
            ..
        } = self;
        (records, next_id)
    }

    // The next free id after the effect, or 2^64-1 where it is greater.
    fn next_id_after(&self, effect: &Effect) -> u64
        ensures { result ≡ capped (self.now.state.next_id + ids_taken self.now.state.records effect.now) }
    {
        self.next_id
            .saturating_add(ids_taken(self.records.as_slice(), effect))
    }

    // Whether the effect may come behind those so far, whatever the numbers.
    fn may_come(&self, effect: &Effect) -> bool
        ensures { result ≡ (not (sets_tree effect.now && self.now.sets) && may_come self.now.state effect.now) }
    {
        !(sets_tree(effect) && self.sets) && may_come(self.records.as_slice(), self.next_id, effect)
    }

    // Makes it what the effect leaves.
    fn enact(&mut self, alloc: Global, effect: &Effect) -> Result<bool, Memory>
        requires may { may_come self.old.state effect.now ≡ true }
        requires small { self.old.state.next_id < 2 ^ 63 }
        ensures bounded { IfOk result (λ bounded. bounded ≡ is_bounded (after self.old.state effect.now)) }
        ensures after { IfOk result (λ bounded. bounded ≡ true → self.new ≡ next_draft self.old effect.now) }
        ensures parts { OnOk result (PushesParts effect.now) }
    {
        let next_id = self.next_id_after(effect);
        push_touched(&mut self.touched, alloc, self.records.as_slice(), effect)?;
        enact(&mut self.records, alloc, effect)?;
        self.next_id = next_id;
        self.sets = self.sets || sets_tree(effect);
        Ok(is_bounded(&self.records, self.next_id, self.serial))
    }

    /// Tries the effect, and answers whether it is applicable. If so, this is what it leaves.
    pub(crate) fn try_next(&mut self, alloc: Global, effect: &Effect) -> Result<bool, Memory>
        requires small { self.old.state.next_id < 2 ^ 63 }
        ensures next { IfOk result (λ is. is ≡ is_next self.old effect.now) }
        ensures after { IfOk result (λ is. is ≡ true → self.new ≡ next_draft self.old effect.now) }
        ensures parts { IfOk result (λ is. is ≡ true → PushesParts effect.now) }
    {
        if !self.may_come(effect) {
            return Ok(false);
        }
        self.enact(alloc, effect)
    }
}
