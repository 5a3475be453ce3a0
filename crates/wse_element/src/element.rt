// The entries of the history.
ghost use Rattle.std.specs.Prelude.{◌≡◌, ◌+◌, ◌^◌, ◌<◌, ◌≤◌, [], ◌∷◌, ◌++◌, ◌↔◌, true, false, not, ◌&&◌, length, map, is_some, IsTrue, IfOk, OnOk, if◌then◌else◌};
ghost use Rattle.std.specs.List.{All, list_any, list_all};
ghost use Rattle.std.specs.Option.{option_copied};
ghost use Rattle.wse_path.specs.Path.{is_under};
ghost use Rattle.wse_path.specs.PathMap.{capped};
ghost use Rattle.wse_element.specs.Content.{old_content, new_content};
ghost use Rattle.wse_element.specs.Record.{AreParts, IsRecord};
ghost use Rattle.wse_element.specs.Apart.{are_apart, old_paths, new_paths, is_apart};
ghost use Rattle.wse_element.specs.Applicable.{is_whole};
ghost use Rattle.wse_element.specs.Live.{is_live, live_part, is_live_at, is_valid_at, live_parts, has_live};
ghost use Rattle.wse_element.specs.Losses.{lost_at, part_lost_at, invalid_at, part_invalid_at};
ghost use Rattle.wse_element.specs.Split.{piece, pieces};
ghost use Rattle.wse_element.specs.Weight.{record_weight};

use crate::apart::{had_apart, left_apart};
use crate::part::{Part, Parts};
use crate::rise::rise;
use crate::search::live_at;
use crate::state::PartState;
use std::alloc::Global;
use std::marker::Model;
use wse_path::{Duplicate, Items, Label, Memory, RelPath};

/// One entry of the history: what a command did to some paths. It has a part at least, and its parts stand in strictly
/// rising path order. This project's own rule. Contracts see its fields.
#[derive(Drop)]
pub struct Element {
    id: u64,
    origin: u64,
    label: Label,
    splits: bool,
    done: bool,
    parts: Vec<Part>,
}

/// Elements, in order of making.
pub type Elements = Items<Element>;

impl Model for Element {
    ghost use Rattle.wse_element.specs.Record.{Record, AreParts};

    ghost Value = { Record };

    ghost view = { λ a. record { id = a.id; origin = a.origin; label = a.label; splits = a.splits; done = a.done; parts = a.parts.items } };

    ghost invariant = { λ a. AreParts a.parts.items };
}

// Equal parts.
fn copies(alloc: Global, parts: &[Part]) -> Result<Vec<Part>, Memory>
    ensures { IfOk result (λ copy. copy.items ≡ parts.now) }
{
    let mut all = Vec::with_capacity(alloc, parts.len())?;
    for part in parts {
        all.push(part.duplicate(alloc)?)?;
    }
    Ok(all)
}

fn lose_each(parts: &mut [Part], path: &RelPath, state: PartState)
    requires { is_live state ≡ false }
    ensures { parts.new ≡ map (part_lost_at path.now state) parts.old }
{
    for part in parts.iter_mut() {
        part.lose_at(path, state);
    }
}

fn invalidate_each(parts: &mut [Part], path: &RelPath)
    ensures { parts.new ≡ map (part_invalid_at path.now) parts.old }
{
    for part in parts.iter_mut() {
        part.invalidate_at(path);
    }
}

impl Element {
    /// Whether an element may have these parts: there is one at least, and their paths strictly rise. Takes no memory.
    pub fn can_have(parts: &[Part]) -> bool
        ensures { IsTrue result ↔ AreParts parts.now }
    {
        !parts.is_empty() && rise(parts)
    }

    /// The element with these fields. Takes no memory.
    pub fn new(
        id: u64,
        origin: u64,
        label: Label,
        splits: bool,
        done: bool,
        parts: Parts,
    ) -> Element
        requires { AreParts parts }
        ensures { result ≡ record { id = id; origin = origin; label = label; splits = splits; done = done; parts = parts } }
    {
        Element {
            id,
            origin,
            label,
            splits,
            done,
            parts: parts.into_vec(),
        }
    }

    /// Its number among all elements of the store.
    pub fn id(&self) -> u64
        ensures { result ≡ self.now.id }
    {
        self.id
    }

    /// The id of the element that its command made, from which it was split.
    pub fn origin(&self) -> u64
        ensures { result ≡ self.now.origin }
    {
        self.origin
    }

    /// What it is called.
    pub fn label(&self) -> &Label
        ensures { result.now ≡ self.now.label }
    {
        &self.label
    }

    /// Whether it can be split: all of its edit's operations were text edits.
    pub fn splits(&self) -> bool
        ensures { result ≡ self.now.splits }
    {
        self.splits
    }

    /// Whether it is done, so that it can be undone and not redone.
    pub fn is_done(&self) -> bool
        ensures { result ≡ self.now.done }
    {
        self.done
    }

    /// Its parts, in path order.
    pub fn parts(&self) -> &[Part]
        ensures parts { result.now ≡ self.now.parts }
        ensures rule { AreParts self.now.parts }
    {
        &self.parts
    }

    /// Whether it is live at some path.
    pub fn has_live(&self) -> bool
        ensures { result ≡ has_live self.now }
    {
        self.parts.iter().any(|part| part.is_live())
    }

    /// Its live part at the path.
    pub fn live_part(&self, path: &RelPath) -> Option<&Part>
        ensures { option_copied result ≡ live_part path.now self.now }
    {
        live_at(&self.parts, path)
    }

    /// Whether it is live at the path.
    pub fn is_live_at(&self, path: &RelPath) -> bool
        ensures { result ≡ is_live_at path.now self.now }
    {
        self.live_part(path).is_some()
    }

    /// Whether it is live and valid at the path.
    pub fn is_valid_at(&self, path: &RelPath) -> bool
        ensures { result ≡ is_valid_at path.now self.now }
    {
        match self.live_part(path) {
            Some(part) => part.is_valid(),
            None => false,
        }
    }

    /// Whether all its parts are live and valid.
    pub fn is_whole(&self) -> bool
        ensures { result ≡ is_whole self.now }
    {
        self.parts
            .iter()
            .all(|part| part.is_live() && part.is_valid())
    }

    /// At how many paths it is live.
    pub fn live_count(&self) -> usize
        ensures { result ≡ length (live_parts self.now) }
    {
        self.parts.iter().filter(|part| part.is_live()).count()
    }

    fn is_old_apart(&self) -> bool
        ensures { result ≡ are_apart (old_paths self.now) }
    {
        had_apart(&self.parts)
    }

    fn is_new_apart(&self) -> bool
        ensures { result ≡ are_apart (new_paths self.now) }
    {
        left_apart(&self.parts)
    }

    /// Whether the contents of its live parts can be files of one tree: those from before its command, and those from
    /// after it. Takes no memory.
    pub fn is_apart(&self) -> bool
        ensures { result ≡ is_apart self.now }
    {
        self.is_old_apart() && self.is_new_apart()
    }

    /// Says whether it is done. Takes no memory.
    pub fn set_done(&mut self, done: bool)
        ensures { self.new ≡ record self.old { done = done } }
    {
        self.done = done;
    }

    /// Takes its live part at the path, if there is one, out of what can be undone and redone. The part loses its
    /// contents. Takes no memory.
    pub fn lose_at(&mut self, path: &RelPath, state: PartState)
        requires { is_live state ≡ false }
        ensures { self.new ≡ lost_at path.now state self.old }
    {
        lose_each(&mut self.parts, path, state);
    }

    /// Makes its live part at the path, if there is one, invalid. Takes no memory.
    pub fn invalidate_at(&mut self, path: &RelPath)
        ensures { self.new ≡ invalid_at path.now self.old }
    {
        invalidate_each(&mut self.parts, path);
    }

    // The element with that id and a copy of this part alone.
    fn piece(&self, alloc: Global, id: u64, part: &Part) -> Result<Element, Memory>
        ensures { IfOk result (λ element. element ≡ piece self.now id part.now) }
    {
        let origin = self.origin;
        let label = self.label.duplicate(alloc)?;
        let mut parts = Vec::with_capacity(alloc, 1)?;
        parts.push(part.duplicate(alloc)?)?;
        Ok(Element {
            id,
            origin,
            label,
            splits: self.splits,
            done: self.done,
            parts,
        })
    }

    // Adds the piece of a live part behind the others, with the next id.
    fn add_piece(
        &self,
        alloc: Global,
        next_id: u64,
        part: &Part,
        all: &mut Vec<Element>,
    ) -> Result<(), Memory>
        requires { next_id + length all.old.items < 2 ^ 64 }
        ensures { OnOk result (all.new.items ≡ all.old.items
            ++ (if is_live part.now.state then piece self.now (next_id + length all.old.items) part.now ∷ [] else [])) }
    {
        if !part.is_live() {
            return Ok(());
        }
        let id = next_id + all.len() as u64;
        all.push(self.piece(alloc, id, part)?)?;
        Ok(())
    }

    // One element for each live part.
    fn numbered_pieces(&self, alloc: Global, next_id: u64) -> Result<Elements, Memory>
        requires { next_id + length self.now.parts < 2 ^ 64 }
        ensures { IfOk result (λ elements. elements ≡ pieces self.now next_id) }
    {
        let mut all = Vec::new(alloc);
        for part in self.parts.as_slice() {
            self.add_piece(alloc, next_id, part, &mut all)?;
        }
        Ok(Elements::new(all))
    }

    /// One element for each live part, in path order, with ids from `next_id` on, whether or not it may be split. All else
    /// is as in this one.
    pub fn pieces(&self, alloc: Global, next_id: u64) -> Result<Elements, Memory>
        requires { next_id < 2 ^ 63 }
        ensures { IfOk result (λ elements. elements ≡ pieces self.now next_id) }
    {
        let _ = &self.parts;
        self.numbered_pieces(alloc, next_id)
    }

    /// One element for each live part, in path order, with ids from `next_id` on. All else is as in this one.
    pub fn split(&self, alloc: Global, next_id: u64) -> Result<Elements, Memory>
        requires splits { self.now.splits ≡ true }
        requires several { 2 ≤ length self.now.parts }
        requires room { next_id + length self.now.parts < 2 ^ 64 }
        ensures { IfOk result (λ elements. elements ≡ pieces self.now next_id) }
    {
        self.numbered_pieces(alloc, next_id)
    }

    /// What its parts count for together: each for 256, and the bytes of the label, of its path's text, and of its old and
    /// its new content. 2^64-1 where that is greater. Takes no memory.
    pub fn weight(&self) -> u64
        ensures { result ≡ capped (record_weight self.now) }
    {
        let mut sum: u64 = 0;
        for part in &self.parts {
            sum = sum.saturating_add(part.weight(&self.label));
        }
        sum
    }
}

impl Duplicate for Element {
    fn duplicate(&self, alloc: Global) -> Result<Element, Memory> {
        Ok(Element {
            id: self.id,
            origin: self.origin,
            label: self.label.duplicate(alloc)?,
            splits: self.splits,
            done: self.done,
            parts: copies(alloc, &self.parts)?,
        })
    }
}
