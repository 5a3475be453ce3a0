// A list of elements that grows, with what its searches ask for kept beside it.
ghost use Rattle.std.specs.Prelude.{◌≡◌, [], ◌∷◌, ◌++◌, length, IfOk, OnOk};
ghost use Rattle.std.specs.List.{list_any};
ghost use Rattle.std.specs.Option.{option_copied};
ghost use Rattle.indexmap.specs.IndexMap.{get};
ghost use Rattle.wse_path.specs.Path.{Path};
ghost use Rattle.wse_element.specs.Live.{is_live_part_at};
ghost use Rattle.wse_element.specs.Stacks.{has_id};
ghost use Rattle.wse_stacks.specs.Fits.{last_live};
ghost use Rattle.wse_stacks.specs.Indexed.{path_eq, noted};

use crate::entry::Entry;
use crate::records::Records;
use indexmap::{IndexMap, IndexSet};
use std::alloc::Global;
use std::marker::Model;
use wse_element::{Element, Part};
use wse_path::{Duplicate, Memory, RelPath};

/// At which place of a list the last element stands that is live at the path.
type LastPlaces = IndexMap<RelPath, usize>;

/// Elements in order of making. An id, and the last element that is live at a path, are found without a pass over them.
/// Contracts see the list.
#[derive(Drop)]
pub(crate) struct Indexed {
    records: Records,
    ids: IndexSet<u64>,
    last: LastPlaces,
}

impl Model for Indexed {
    ghost use Rattle.std.specs.Prelude.{List, nat_eq};
    ghost use Rattle.indexmap.specs.IndexMap.{get};
    ghost use Rattle.indexmap.specs.IndexSet.{contains};
    ghost use Rattle.wse_element.specs.Record.{Record};
    ghost use Rattle.wse_stacks.specs.Indexed.{path_eq, AreIndexed};

    ghost Value = { List Record };

    ghost view = { λ a. a.records };

    ghost invariant = { λ a. AreIndexed a.records (contains nat_eq a.ids) (get path_eq a.last) };
}

// Notes the place at the part's path, if the part is live.
fn note_part(last: &mut LastPlaces, alloc: Global, part: &Part, at: usize) -> Result<(), Memory>
    ensures { OnOk result ((p : Path) → get path_eq last.new p ≡ noted (is_live_part_at p part.now) at (get path_eq last.old p)) }
{
    if part.is_live() {
        last.insert(part.path().duplicate(alloc)?, at)?;
    }
    Ok(())
}

// The same for each part.
fn note_parts(last: &mut LastPlaces, alloc: Global, parts: &[Part], at: usize) -> Result<(), Memory>
    ensures { OnOk result ((p : Path) → get path_eq last.new p ≡ noted (list_any (is_live_part_at p) parts.now) at (get path_eq last.old p)) }
{
    for part in parts {
        note_part(last, alloc, part, at)?;
    }
    Ok(())
}

impl Indexed {
    /// No elements. Takes no memory.
    pub(crate) fn new(alloc: Global) -> Indexed
        ensures { result ≡ [] }
    {
        Indexed {
            records: Records::new(alloc),
            ids: IndexSet::new(alloc),
            last: IndexMap::new(alloc),
        }
    }

    /// How many elements there are.
    pub(crate) fn len(&self) -> usize
        ensures { result ≡ length self.now }
    {
        self.records.as_slice().len()
    }

    /// The list alone.
    pub(crate) fn into_records(self) -> Records
        ensures { result ≡ self }
    {
        let Indexed { records, .. } = self;
        records
    }

    /// Whether an element has the id.
    pub(crate) fn has_id(&self, id: u64) -> bool
        ensures { result ≡ list_any (has_id id) self.now }
    {
        self.ids.contains(&id)
    }

    /// The last element that is live at the path.
    pub(crate) fn last_live(&self, path: &RelPath) -> Option<&Element>
        ensures { option_copied result ≡ last_live self.now path.now }
    {
        let at = self.last.get(path)?;
        let entry = self.records.as_slice().get(*at)?;
        Some(entry.element())
    }

    /// These elements and the new one behind them.
    pub(crate) fn with(self, alloc: Global, element: Element) -> Result<Indexed, Memory>
        ensures { IfOk result (λ all. all ≡ self ++ element ∷ []) }
    {
        let Indexed {
            mut records,
            mut ids,
            mut last,
        } = self;
        ids.insert(element.id())?;
        note_parts(&mut last, alloc, element.parts(), records.as_slice().len())?;
        records.push(Entry::new(alloc, element)?)?;
        Ok(Indexed { records, ids, last })
    }
}
