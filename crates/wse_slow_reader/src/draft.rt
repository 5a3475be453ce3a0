// The effects of one record tried one by one.
ghost use Rattle.std.specs.Prelude.{◌≡◌, ◌+◌, ◌++◌, ◌<◌, ◌≤◌, ◌^◌, true, false, not, ◌&&◌, IfOk, IfSome, IfNone};
ghost use Rattle.wse_element.specs.State.{stacks_of};
ghost use Rattle.wse_element.specs.Effects.{ids_taken};
ghost use Rattle.wse_element.specs.Applicable.{sets_tree, may_come, may_bump};
ghost use Rattle.wse_plain.specs.Ids.{HasLowIds};
ghost use Rattle.wse_slow_reader.specs.Draft.{begun_draft, next_draft, is_next, is_draft_bounded};

use crate::left::Left;
use std::alloc::Global;
use std::marker::Model;
use wse_element::{Effect, Element};
use wse_path::Memory;
use wse_plain::{
    Contents, Numbers, are_versions_bounded, contents_set, ids_taken, is_bounded, is_known_bounded,
    may_bump, may_come, records_after, sets_tree, versions_after,
};

/// What the effects so far leave, and what they set in the tree.
#[derive(Drop)]
pub(crate) struct Draft {
    versions: Numbers,
    records: Vec<Element>,
    next_id: u64,
    // With the record counted.
    serial: u64,
    // Whether one of the effects sets paths of the tree.
    setting: bool,
    sets: Contents,
}

impl Model for Draft {
    ghost use Rattle.wse_slow_reader.specs.Draft.{DraftState};

    ghost Value = { DraftState };

    ghost view = { λ a. record {
      kept = record { versions = a.versions.items; records = a.records.items; next_id = a.next_id; serial = a.serial };
      setting = a.setting;
      sets = a.sets.items;
    } };
}

// The contents with these behind them.
fn extended(sets: Contents, more: Contents) -> Result<Contents, Memory>
    ensures { IfOk result (λ all. all.items ≡ sets.items ++ more.items) }
{
    let mut all = sets;
    for content in more {
        all.push(content)?;
    }
    Ok(all)
}

impl Draft {
    /// No effect is done yet, but the record is counted.
    pub(crate) fn begin(alloc: Global, left: Left) -> Draft
        requires { left.kept.serial < 2 ^ 32 }
        ensures { result ≡ begun_draft left.kept }
    {
        let Left {
            versions,
            records,
            next_id,
            serial,
            sets: _,
        } = left;
        Draft {
            versions,
            records,
            next_id,
            serial: serial + 1,
            setting: false,
            sets: Vec::new(alloc),
        }
    }

    /// What is left.
    pub(crate) fn finish(self) -> Left
        ensures { result ≡ record { kept = self.kept; sets = self.sets } }
    {
        let Draft {
            versions,
            records,
            next_id,
            serial,
            setting: _,
            sets,
        } = self;
        Left {
            versions,
            records,
            next_id,
            serial,
            sets,
        }
    }

    // Whether the effect may come behind those so far, whatever the numbers but its version's.
    fn may_come(&self, effect: &Effect) -> bool
        ensures { result ≡ (not (sets_tree effect.now && self.now.setting)
            && (may_come (stacks_of self.now.kept) effect.now && may_bump self.now.kept.versions effect.now)) }
    {
        !(sets_tree(effect) && self.setting)
            && (may_come(&self.records, self.next_id, effect) && may_bump(&self.versions, effect))
    }

    // What the effect leaves, with this as the next free id.
    fn done(self, alloc: Global, effect: &Effect, next_id: u64) -> Result<Draft, Memory>
        requires low { HasLowIds effect.now }
        requires bump { may_bump self.kept.versions effect.now ≡ true }
        requires next { next_id ≡ self.kept.next_id + ids_taken self.kept.records effect.now }
        ensures { IfOk result (λ next. next ≡ next_draft self effect.now) }
    {
        let Draft {
            versions,
            records,
            next_id: _,
            serial,
            setting,
            sets,
        } = self;
        let more = contents_set(alloc, &records, effect)?;
        Ok(Draft {
            versions: versions_after(alloc, versions, effect)?,
            records: records_after(alloc, &records, effect)?,
            next_id,
            serial,
            setting: setting || sets_tree(effect),
            sets: extended(sets, more)?,
        })
    }

    // Whether the numbers are within their bounds.
    fn is_bounded(&self) -> bool
        requires { self.now.kept.serial < 2 ^ 31 }
        ensures { result ≡ is_draft_bounded self.now.kept }
    {
        is_bounded(&self.records, self.next_id, self.serial)
            && (are_versions_bounded(&self.versions, self.serial)
                && is_known_bounded(&self.versions))
    }

    // The next free id behind the effect, where it is a number of 64 bits.
    fn next_id_after(&self, effect: &Effect) -> Option<u64>
        ensures none { IfNone result (2 ^ 64 ≤ self.now.kept.next_id + ids_taken self.now.kept.records effect.now) }
        ensures some { IfSome result (λ n. n ≡ self.now.kept.next_id + ids_taken self.now.kept.records effect.now) }
    {
        self.next_id.checked_add(ids_taken(&self.records, effect))
    }

    // What an effect that may come leaves, with this as the next free id, or None where a number is out of its bounds then.
    fn tried(self, alloc: Global, effect: &Effect, next_id: u64) -> Result<Option<Draft>, Memory>
        requires may { (not (sets_tree effect.now && self.setting)
            && (may_come (stacks_of self.kept) effect.now && may_bump self.kept.versions effect.now)) ≡ true }
        requires low { HasLowIds effect.now }
        requires counted { self.kept.serial < 2 ^ 31 }
        requires next { next_id ≡ self.kept.next_id + ids_taken self.kept.records effect.now }
        ensures refused { IfOk result (λ next. IfNone next (is_next self effect.now ≡ false)) }
        ensures is_next { IfOk result (λ next. IfSome next (λ _. is_next self effect.now ≡ true)) }
        ensures next { IfOk result (λ next. IfSome next (λ d. d ≡ next_draft self effect.now)) }
    {
        let next = self.done(alloc, effect, next_id)?;
        if !next.is_bounded() {
            return Ok(None);
        }
        Ok(Some(next))
    }

    /// What the effect leaves, or None where it isn't applicable behind those so far.
    pub(crate) fn with(self, alloc: Global, effect: &Effect) -> Result<Option<Draft>, Memory>
        requires low { self.kept.next_id < 2 ^ 63 }
        requires counted { self.kept.serial < 2 ^ 31 }
        ensures refused { IfOk result (λ next. IfNone next (is_next self effect.now ≡ false)) }
        ensures is_next { IfOk result (λ next. IfSome next (λ _. is_next self effect.now ≡ true)) }
        ensures next { IfOk result (λ next. IfSome next (λ d. d ≡ next_draft self effect.now)) }
    {
        if !self.may_come(effect) {
            return Ok(None);
        }
        match self.next_id_after(effect) {
            Some(next_id) => self.tried(alloc, effect, next_id),
            None => Ok(None),
        }
    }
}
