// What an element says of one path.
ghost use Rattle.std.specs.Prelude.{◌≡◌, ◌≢◌, ◌+◌, length, false, is_some, IfOk};
ghost use Rattle.wse_path.specs.Changes.{is_same};
ghost use Rattle.wse_path.specs.PathMap.{capped};
ghost use Rattle.wse_element.specs.Content.{old_content, new_content};
ghost use Rattle.wse_element.specs.Record.{IsBodyOf};
ghost use Rattle.wse_element.specs.Live.{is_live, is_live_part_at};
ghost use Rattle.wse_element.specs.Losses.{lost, part_lost_at, part_invalid_at};
ghost use Rattle.wse_element.specs.Weight.{part_weight};

use crate::body::Body;
use crate::state::PartState;
use std::alloc::Global;
use std::marker::Model;
use wse_path::{Bytes, Duplicate, Items, Label, Memory, RelPath};

/// What an element did to one path. A live part changes its path's content; any other part holds no contents. This
/// project's own rule. Contracts see its path, its state, whether it is valid, and its body.
#[derive(Drop)]
pub struct Part {
    path: RelPath,
    state: PartState,
    valid: bool,
    body: Body,
}

/// The parts of an element.
pub type Parts = Items<Part>;

impl Model for Part {
    ghost use Rattle.wse_element.specs.Record.{RecordPart, IsBodyOf};

    ghost Value = { RecordPart };

    ghost view = { λ a. record { path = a.path; state = a.state; valid = a.valid; body = a.body } };

    ghost invariant = { λ a. IsBodyOf a.state a.body };
}

impl Part {
    /// The part with these fields. Takes no memory.
    pub fn new(path: RelPath, state: PartState, valid: bool, body: Body) -> Part
        requires { IsBodyOf state body }
        ensures { result ≡ record { path = path; state = state; valid = valid; body = body } }
    {
        Part {
            path,
            state,
            valid,
            body,
        }
    }

    /// The path.
    pub fn path(&self) -> &RelPath
        ensures { result.now ≡ self.now.path }
    {
        &self.path
    }

    /// Whether the part still counts.
    pub fn state(&self) -> PartState
        ensures state { result ≡ self.now.state }
        ensures rule { IsBodyOf self.now.state self.now.body }
    {
        self.state
    }

    /// Whether the part is live.
    pub fn is_live(&self) -> bool
        ensures { result ≡ is_live self.now.state }
    {
        match self.state {
            PartState::Live => true,
            PartState::Closed | PartState::Incompatible => false,
        }
    }

    /// Whether the part is live, and at the path.
    pub fn is_live_at(&self, path: &RelPath) -> bool
        ensures { result ≡ is_live_part_at path.now self.now }
    {
        path.cmp(&self.path).is_eq() && self.is_live()
    }

    /// Whether its contents are still those of the path's history.
    pub fn is_valid(&self) -> bool
        ensures { result ≡ self.now.valid }
    {
        self.valid
    }

    /// The contents.
    pub fn body(&self) -> &Body
        ensures { result.now ≡ self.now.body }
    {
        &self.body
    }

    /// A copy of the content before the element's command. None: nothing was there.
    pub fn old_bytes(&self, alloc: Global) -> Result<Option<Bytes>, Memory>
        ensures { IfOk result (λ bytes. bytes ≡ old_content self.now.body) }
    {
        self.body.old_bytes(alloc)
    }

    /// A copy of the content after the element's command. None: nothing was there.
    pub fn new_bytes(&self, alloc: Global) -> Result<Option<Bytes>, Memory>
        ensures { IfOk result (λ bytes. bytes ≡ new_content self.now.body) }
    {
        self.body.new_bytes(alloc)
    }

    /// Whether there was a file before the element's command.
    pub fn had_file(&self) -> bool
        ensures { result ≡ is_some (old_content self.now.body) }
    {
        self.body.has_old()
    }

    /// Whether there was a file after the element's command.
    pub fn left_file(&self) -> bool
        ensures { result ≡ is_some (new_content self.now.body) }
    {
        self.body.has_new()
    }

    /// Whether the next part found what this one left. Takes no memory.
    pub fn meets(&self, next: &Part) -> bool
        ensures { result ≡ is_same (new_content self.now.body) (old_content next.now.body) }
    {
        self.body.meets(&next.body)
    }

    /// Whether this part found what the one before left. Takes no memory.
    pub fn follows(&self, before: &Part) -> bool
        ensures { result ≡ is_same (old_content self.now.body) (new_content before.now.body) }
    {
        self.body.follows(&before.body)
    }

    /// What the part counts for under this label, or 2^64-1 where that is greater. Takes no memory.
    pub fn weight(&self, label: &Label) -> u64
        ensures { result ≡ capped (part_weight label.now self.now) }
    {
        let named = 256 + label.len() + self.path.text_len();
        (named as u64)
            .saturating_add(self.body.old_len() as u64)
            .saturating_add(self.body.new_len() as u64)
    }

    /// Takes the part out of what can be undone and redone. It loses its contents. Takes no memory.
    pub fn lose(&mut self, state: PartState)
        requires { is_live state ≡ false }
        ensures { self.new ≡ lost state self.old }
    {
        self.state = state;
        self.body = Body::empty();
    }

    /// Makes the part invalid, for good. Takes no memory.
    pub fn invalidate(&mut self)
        ensures { self.new ≡ record self.old { valid = false } }
    {
        self.valid = false;
    }

    /// Takes the part out of what can be undone and redone, if it is live and at the path. Takes no memory.
    pub fn lose_at(&mut self, path: &RelPath, state: PartState)
        requires { is_live state ≡ false }
        ensures { self.new ≡ part_lost_at path.now state self.old }
    {
        if self.is_live_at(path) {
            self.lose(state);
        }
    }

    /// Makes the part invalid, if it is live and at the path. Takes no memory.
    pub fn invalidate_at(&mut self, path: &RelPath)
        ensures { self.new ≡ part_invalid_at path.now self.old }
    {
        if self.is_live_at(path) {
            self.invalidate();
        }
    }
}

impl Duplicate for Part {
    fn duplicate(&self, alloc: Global) -> Result<Part, Memory> {
        Ok(Part {
            path: self.path.duplicate(alloc)?,
            state: self.state,
            valid: self.valid,
            body: self.body.duplicate(alloc)?,
        })
    }
}
