// Elements of a list, which several lists may share.
ghost use Rattle.std.specs.Prelude.{◌≡◌, IfOk};
ghost use Rattle.wse_path.specs.PathMap.{capped};
ghost use Rattle.wse_element.specs.Record.{AreParts};
ghost use Rattle.wse_element.specs.Weight.{record_weight};

use std::alloc::Global;
use std::marker::Model;
use std::rc::Rc;
use wse_element::Element;
use wse_path::Memory;

/// An element and its weight. A copy shares the element. Contracts see the element.
pub(crate) struct Entry {
    element: Rc<Element>,
    weight: u64,
}

// Written out, so that who drops one takes a single step.
impl Drop for Entry {
    fn drop(self) {
        let Entry { element, weight: _ } = self;
        drop(element);
    }
}

impl Model for Entry {
    ghost use Rattle.std.specs.Prelude.{◌≡◌};
    ghost use Rattle.wse_path.specs.PathMap.{capped};
    ghost use Rattle.wse_element.specs.Record.{Record, AreParts};
    ghost use Rattle.wse_element.specs.Weight.{record_weight};

    ghost Value = { Record };

    ghost view = { λ a. a.element.value };

    ghost invariant = { λ a. (a.weight ≡ capped (record_weight a.element.value)) × AreParts a.element.value.parts };
}

impl Entry {
    /// The entry of an element.
    pub(crate) fn new(alloc: Global, element: Element) -> Result<Entry, Memory>
        ensures { IfOk result (λ entry. entry ≡ element) }
    {
        let weight = element.weight();
        let _ = element.parts();
        let element = Rc::new(alloc, element)?;
        Ok(Entry { element, weight })
    }

    /// A second entry of the same element.
    pub(crate) fn share(&self) -> Result<Entry, Memory>
        ensures { IfOk result (λ entry. entry ≡ self.now) }
    {
        let weight = self.weight;
        let element = self.element.clone()?;
        Ok(Entry { element, weight })
    }

    /// The element.
    pub(crate) fn element(&self) -> &Element
        ensures value { result.now ≡ self.now }
        ensures parts { AreParts self.now.parts }
    {
        &self.element
    }

    /// What the element counts for, or 2^64-1 where that is greater.
    pub(crate) fn weight(&self) -> u64
        ensures { result ≡ capped (record_weight self.now) }
    {
        self.weight
    }
}
