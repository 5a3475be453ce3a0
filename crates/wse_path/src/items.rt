// Lists that answers hold, and copies that may find no memory.
ghost use Rattle.std.specs.Prelude.{◌≡◌, length, nat_eq, IfOk};
ghost use Rattle.std.specs.Iterator.Adapters.{IterYieldsInOrder};
ghost use Rattle.std.specs.Slice.Iter.{iter_rest};

use crate::memory::Memory;
use crate::path::RelPath;
use std::alloc::Global;
use std::marker::Model;
use std::slice::Iter;

/// A value of which a second one can be made.
pub trait Duplicate {
    /// An equal value.
    fn duplicate(&self, alloc: Global) -> Result<Self, Memory>
    where
        Self: Sized,
        ensures { IfOk result (λ copy. copy ≡ self.now) };
}

impl Duplicate for u8 {
    fn duplicate(&self, _alloc: Global) -> Result<u8, Memory> {
        Ok(*self)
    }
}

impl Duplicate for u32 {
    fn duplicate(&self, _alloc: Global) -> Result<u32, Memory> {
        Ok(*self)
    }
}

impl<T: Duplicate + Drop> Duplicate for Option<T> {
    fn duplicate(&self, alloc: Global) -> Result<Option<T>, Memory> {
        match self {
            Some(value) => Ok(Some(value.duplicate(alloc)?)),
            None => Ok(None),
        }
    }
}

/// A list that no longer grows. Contracts see it as a list.
#[derive(Debug, Drop)]
pub struct Items<T> {
    all: Vec<T>,
}

/// The bytes of a file.
pub type Bytes = Items<u8>;

/// Paths, in the order that their place says.
pub type Files = Items<RelPath>;

impl<T> Model for Items<T> {
    ghost use Rattle.std.specs.Prelude.{List};

    ghost Value = { List T };

    ghost view = { λ a. a.all.items };
}

impl<T> Items<T> {
    /// The list of these items. Takes no memory.
    pub fn new(items: Vec<T>) -> Items<T>
        ensures { result ≡ items.items }
    {
        Items { all: items }
    }

    /// How many items there are.
    pub fn len(&self) -> usize
        ensures { result ≡ length self.now }
    {
        self.all.len()
    }

    /// Whether there is none.
    pub fn is_empty(&self) -> bool
        ensures { result ≡ nat_eq (length self.now) 0 }
    {
        self.all.is_empty()
    }

    /// Takes the items out. Takes no memory.
    pub fn into_vec(self) -> Vec<T>
        ensures { result.items ≡ self }
    {
        self.all
    }

    /// The items as a slice.
    pub fn as_slice(&self) -> &[T]
        ensures { result.now ≡ self.now }
    {
        &self.all
    }

    /// The items one after another.
    pub fn iter(&self) -> Iter<'_, T>
        ensures items { iter_rest result ≡ self.now }
        ensures order { IterYieldsInOrder T }
    {
        self.all.iter()
    }
}

impl<'a, T> IntoIterator for &'a Items<T> {
    type Item = &'a T;

    type IntoIter = Iter<'a, T>;

    ghost use Rattle.std.specs.Prelude.{◌≡◌, ℕ, ◌^◌, ◌<◌, length};
    ghost use Rattle.std.specs.Slice.Iter.{iter_rest};
    ghost use Rattle.std.specs.Iterator.Adapters.{IterYieldsInOrder};

    ghost into_iter_gives = { λ items it. (iter_rest it ≡ items.now) × (length (iter_rest it) < 2 ^ 64) × IterYieldsInOrder T };

    fn into_iter(self) -> Iter<'a, T> {
        self.all.iter()
    }
}

/// Item by item.
impl<T: PartialEq> PartialEq for Items<T> {
    ghost use Rattle.std.specs.Cmp.Lexicographic.{pointwise, lists_per};

    ghost eq = { pointwise T.eq };

    ghost laws = { lists_per T.laws };

    fn eq(&self, other: &Items<T>) -> bool {
        self.all == other.all
    }
}

impl<T: Eq> Eq for Items<T> {
    ghost use Rattle.std.specs.Cmp.Lexicographic.{lists_equiv};

    ghost laws = { lists_equiv T.Eq.laws };
}

impl<T: Duplicate + Drop> Duplicate for Items<T> {
    fn duplicate(&self, alloc: Global) -> Result<Items<T>, Memory> {
        let mut all = Vec::with_capacity(alloc, self.all.len())?;
        for item in &self.all {
            all.push(item.duplicate(alloc)?)?;
        }
        Ok(Items { all })
    }
}
