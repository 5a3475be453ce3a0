// Many paths of a map changed in one pass over the entries from the first of them on.
ghost use Rattle.std.specs.Prelude.{◌≡◌, ◌+◌, ◌<◌, ◌≤◌, ◌∷◌, ◌++◌, List, Option, [], Some, length, reverse, min, true, unwrap_or, ◌-◌, ◌^◌};
ghost use Rattle.std.specs.FinMap.{put, is_sorted};
ghost use Rattle.std.specs.Option.{option_copied};
ghost use Rattle.std.specs.Vec.{vec_capacity};
ghost use Rattle.std.specs.declared.cmp.Ordering.TheVariants.{Less};
ghost use Rattle.wse_path.specs.Order.{path_cmp};
ghost use Rattle.wse_path.specs.Path.{Path};
ghost use Rattle.wse_path.specs.PathMap.{value_at, without, set_value, update_all};
ghost use Rattle.wse_path.specs.Place.{all_before};

use crate::path::RelPath;
use crate::row::{Row, Weighed};
use std::cmp::Ordering;

/// What becomes of the value at a path.
pub trait Update<V>: Drop {
    ghost updated: { Self → Option V → Option V };

    /// The value in place of the one that is there.
    fn update(self, was: Option<&V>) -> Option<V>
        ensures { result ≡ updated self (option_copied was.entry) };

    /// Whether there is a value afterwards. It decides what a change costs, not what it does.
    fn keeps(&self) -> bool;
}

/// Another value, or none.
impl<V: Drop> Update<V> for Option<V> {
    ghost updated = { λ new old. new };

    fn update(self, _was: Option<&V>) -> Option<V>
        ensures { result ≡ self }
    {
        self
    }

    fn keeps(&self) -> bool {
        self.is_some()
    }
}

/// A number that is added, up to the largest of 32 bits.
impl Update<u32> for u32 {
    ghost updated = { λ by old. Some (min (unwrap_or old 0 + by) (2 ^ 32 - 1)) };

    fn update(self, was: Option<&u32>) -> Option<u32>
        ensures { result ≡ Some (min (unwrap_or (option_copied was.entry) 0 + self) (2 ^ 32 - 1)) }
    {
        Some(was.copied().unwrap_or(0).saturating_add(self))
    }

    fn keeps(&self) -> bool {
        true
    }
}

/// Moves the entries from a place on into the rest, last first.
pub fn unload<V: Weighed>(row: &mut Row<V>, rest: &mut Vec<(RelPath, V)>, at: usize)
    requires within { at ≤ length row.old.items }
    requires empty { rest.old.items ≡ [] }
    requires room { length row.old.items ≤ vec_capacity rest.old }
    ensures same { row.new.items ++ reverse rest.new.items ≡ row.old.items }
    ensures front { length row.new.items ≡ at }
    ensures row_capacity { row.new.capacity ≡ row.old.capacity }
    ensures rest_capacity { vec_capacity rest.new ≡ vec_capacity rest.old }
{
    while row.len() > at {
        let entry = row.pop();
        rest.push_reserved(entry);
    }
}

/// Moves the entries before the path back into the row, and takes the one at the path out.
fn take_at<V: Weighed>(row: &mut Row<V>, rest: &mut Vec<(RelPath, V)>, path: &RelPath) -> Option<V>
    requires room { length row.old.items + length rest.old.items ≤ row.old.capacity }
    requires rises { is_sorted path_cmp (row.old.items ++ reverse rest.old.items) ≡ true }
    requires before { all_before path_cmp row.old.items path.now ≡ true }
    ensures value { result ≡ value_at (row.old.items ++ reverse rest.old.items) path.now }
    ensures without { row.new.items ++ reverse rest.new.items ≡ without (row.old.items ++ reverse rest.old.items) path.now }
    ensures placed { (v : V) → row.new.items ++ (path.now, v) ∷ reverse rest.new.items
        ≡ put path_cmp path.now v (row.old.items ++ reverse rest.old.items) }
    ensures before { all_before path_cmp row.new.items path.now ≡ true }
    ensures fewer { length row.new.items + length rest.new.items ≤ length row.old.items + length rest.old.items }
    ensures row_capacity { row.new.capacity ≡ row.old.capacity }
    ensures rest_capacity { vec_capacity rest.new ≡ vec_capacity rest.old }
{
    while let Some((there, value)) = rest.pop() {
        match there.cmp(path) {
            Ordering::Less => row.push(there, value),
            Ordering::Equal => return Some(value),
            Ordering::Greater => {
                rest.push_reserved((there, value));
                return None;
            }
        }
    }
    None
}

/// Sets the path to what its item makes of the value there.
fn set_next<V: Weighed, C: Update<V>>(
    row: &mut Row<V>,
    rest: &mut Vec<(RelPath, V)>,
    path: RelPath,
    item: C,
)
    requires room { length row.old.items + length rest.old.items < row.old.capacity }
    requires rises { is_sorted path_cmp (row.old.items ++ reverse rest.old.items) ≡ true }
    requires before { all_before path_cmp row.old.items path ≡ true }
    ensures set { row.new.items ++ reverse rest.new.items
        ≡ set_value (row.old.items ++ reverse rest.old.items) path (C.updated item (value_at (row.old.items ++ reverse rest.old.items) path)) }
    ensures before { (q : Path) → path_cmp path q ≡ Less → all_before path_cmp row.new.items q ≡ true }
    ensures more { length row.new.items + length rest.new.items ≤ length row.old.items + length rest.old.items + 1 }
    ensures row_capacity { row.new.capacity ≡ row.old.capacity }
    ensures rest_capacity { vec_capacity rest.new ≡ vec_capacity rest.old }
{
    let old = take_at(row, rest, &path);
    match item.update(old.as_ref()) {
        Some(value) => row.push(path, value),
        None => (),
    }
}

/// Sets each path to what its item makes of the value there. The row has the entries before the first of them.
pub fn set_each<V: Weighed, C: Update<V>>(
    row: &mut Row<V>,
    rest: &mut Vec<(RelPath, V)>,
    items: Vec<(RelPath, C)>,
)
    requires room { length row.old.items + length rest.old.items + length items.items ≤ row.old.capacity }
    requires rises { is_sorted path_cmp (row.old.items ++ reverse rest.old.items) ≡ true }
    requires items_rise { is_sorted path_cmp items.items ≡ true }
    requires before { (c : Path × C) → (more : List (Path × C)) → items.items ≡ c ∷ more
        → all_before path_cmp row.old.items c.0 ≡ true }
    ensures set { row.new.items ++ reverse rest.new.items
        ≡ update_all C.updated items.items (row.old.items ++ reverse rest.old.items) }
    ensures more { length row.new.items + length rest.new.items
        ≤ length row.old.items + length rest.old.items + length items.items }
    ensures row_capacity { row.new.capacity ≡ row.old.capacity }
    ensures rest_capacity { vec_capacity rest.new ≡ vec_capacity rest.old }
{
    for (path, item) in items {
        set_next(row, rest, path, item);
    }
}

/// Moves all that is left back into the row.
pub fn restore<V: Weighed>(row: &mut Row<V>, rest: &mut Vec<(RelPath, V)>)
    requires { length row.old.items + length rest.old.items ≤ row.old.capacity }
    ensures same { row.new.items ≡ row.old.items ++ reverse rest.old.items }
    ensures empty { rest.new.items ≡ [] }
    ensures row_capacity { row.new.capacity ≡ row.old.capacity }
    ensures rest_capacity { vec_capacity rest.new ≡ vec_capacity rest.old }
{
    while let Some((path, value)) = rest.pop() {
        row.push(path, value);
    }
}
