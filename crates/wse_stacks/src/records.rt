// The list of elements in order of making.
ghost use Rattle.std.specs.Prelude.{◌≡◌, [], ◌∷◌, ◌++◌, length, IfOk, OnOk, OnErr};
ghost use Rattle.wse_path.specs.PathMap.{capped};
ghost use Rattle.wse_element.specs.Weight.{weight};
ghost use Rattle.wse_stacks.specs.Stacks.{HaveParts};

use crate::entry::Entry;
use std::alloc::Global;
use std::marker::Model;
use wse_path::Memory;

/// Elements in order of making, and what they count for together. Contracts see the list.
pub(crate) struct Records {
    all: Vec<Entry>,
    total: u64,
}

// Written out, so that who drops one takes a single step.
impl Drop for Records {
    fn drop(self) {
        let Records { all, total: _ } = self;
        drop(all);
    }
}

impl Model for Records {
    ghost use Rattle.std.specs.Prelude.{◌≡◌, List};
    ghost use Rattle.wse_path.specs.PathMap.{capped};
    ghost use Rattle.wse_element.specs.Record.{Record};
    ghost use Rattle.wse_element.specs.Weight.{weight};
    ghost use Rattle.wse_stacks.specs.Stacks.{HaveParts};

    ghost Value = { List Record };

    ghost view = { λ a. a.all.items };

    ghost invariant = { λ a. (a.total ≡ capped (weight a.all.items)) × HaveParts a.all.items };
}

impl Records {
    /// No elements. Takes no memory.
    pub(crate) fn new(alloc: Global) -> Records
        ensures { result ≡ [] }
    {
        Records {
            all: Vec::new(alloc),
            total: 0,
        }
    }

    /// The elements.
    pub(crate) fn as_slice(&self) -> &[Entry]
        ensures value { result.now ≡ self.now }
        ensures parts { HaveParts self.now }
    {
        &self.all
    }

    /// Each element has parts, whose paths rise: a rule that the type keeps.
    pub(crate) fn rule(&self)
        ensures { HaveParts self.now }
    {
        let _ = &self.all;
    }

    /// What they count for together, or 2^64-1 where that is greater.
    pub(crate) fn weight(&self) -> u64
        ensures { result ≡ capped (weight self.now) }
    {
        self.total
    }

    /// The same elements, shared.
    pub(crate) fn share(&self, alloc: Global) -> Result<Records, Memory>
        ensures { IfOk result (λ copy. copy ≡ self.now) }
    {
        share_all(alloc, &self.all)
    }

    /// Puts the element behind the others.
    pub(crate) fn push(&mut self, entry: Entry) -> Result<(), Memory>
        ensures ok { OnOk result (self.new ≡ self.old ++ entry ∷ []) }
        ensures memory { OnErr result (self.new ≡ self.old) }
    {
        let total = self.total.saturating_add(entry.weight());
        let _ = entry.element();
        self.all.push(entry)?;
        self.total = total;
        Ok(())
    }
}

fn share_all(alloc: Global, entries: &[Entry]) -> Result<Records, Memory>
    ensures { IfOk result (λ copy. copy ≡ entries.now) }
{
    let mut all = Records::new(alloc);
    for entry in entries {
        all.push(entry.share()?)?;
    }
    Ok(all)
}
