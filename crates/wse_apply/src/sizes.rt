// How large trees are, and what changes make of it.
ghost use Rattle.std.specs.Prelude.{◌≡◌};
ghost use Rattle.wse_apply.specs.Sizes.{content_size, sizes_of, plus, minus, size_before, size_after, bytes_above, first_after_above, size_hit, hit_after};
ghost use Rattle.wse_apply.specs.Limit.{hit_above};

use wse_path::{Bytes, Change, Hit, Limits, Tree, Which};

/// A number of files and of their bytes, each 2^64-1 where it is greater.
#[derive(Clone, Copy)]
pub struct Sizes {
    pub files: u64,
    pub bytes: u64,
}

impl Sizes {
    /// The size of the tree.
    pub fn of(tree: &Tree) -> Sizes
        ensures { result ≡ sizes_of tree.now.files }
    {
        Sizes {
            files: tree.count() as u64,
            bytes: tree.bytes(),
        }
    }

    fn plus(self, more: Sizes) -> Sizes
        ensures { result ≡ plus self more }
    {
        Sizes {
            files: self.files.saturating_add(more.files),
            bytes: self.bytes.saturating_add(more.bytes),
        }
    }

    fn minus(self, gone: Sizes) -> Sizes
        ensures { result ≡ minus self gone }
    {
        Sizes {
            files: self.files.saturating_sub(gone.files),
            bytes: self.bytes.saturating_sub(gone.bytes),
        }
    }

    /// The size after the changes.
    pub fn changed(self, changes: &[Change]) -> Sizes
        ensures { result ≡ plus (minus self (size_before changes.now)) (size_after changes.now) }
    {
        self.minus(size_before(changes)).plus(size_after(changes))
    }
}

fn content_size(content: &Option<Bytes>) -> Sizes
    ensures { result ≡ content_size content.now }
{
    match content {
        Some(bytes) => Sizes {
            files: 1,
            bytes: bytes.len() as u64,
        },
        None => Sizes { files: 0, bytes: 0 },
    }
}

/// What the changed paths held before.
fn size_before(changes: &[Change]) -> Sizes
    ensures { result ≡ size_before changes.now }
{
    let mut all = Sizes { files: 0, bytes: 0 };
    for change in changes {
        all = all.plus(content_size(&change.before));
    }
    all
}

/// What they hold after.
fn size_after(changes: &[Change]) -> Sizes
    ensures { result ≡ size_after changes.now }
{
    let mut all = Sizes { files: 0, bytes: 0 };
    for change in changes {
        all = all.plus(content_size(&change.after));
    }
    all
}

/// The bytes of a content that has more than these.
fn bytes_above(limit: u64, content: &Option<Bytes>) -> Option<u64>
    ensures { result ≡ bytes_above limit content.now }
{
    match content {
        Some(bytes) => {
            let number = bytes.len() as u64;
            if number > limit {
                return Some(number);
            }
            None
        }
        None => None,
    }
}

/// The bytes of the first new content that has more than these.
fn first_after_above(limit: u64, changes: &[Change]) -> Option<u64>
    ensures { result ≡ first_after_above limit changes.now }
{
    for change in changes {
        if let Some(number) = bytes_above(limit, &change.after) {
            return Some(number);
        }
    }
    None
}

fn hit_above(which: Which, limit: u64, number: u64) -> Option<Hit>
    ensures { result ≡ hit_above which limit number }
{
    if number > limit {
        return Some(Hit {
            which,
            would_be: number,
        });
    }
    None
}

/// The first limit that the size passes.
pub fn size_hit(limits: &Limits, sizes: Sizes) -> Option<Hit>
    ensures { result ≡ size_hit limits.now sizes }
{
    match hit_above(Which::Files, limits.files, sizes.files) {
        Some(hit) => Some(hit),
        None => hit_above(Which::TreeBytes, limits.tree_bytes, sizes.bytes),
    }
}

/// The first limit that is passed after the changes, by the size of all files then.
pub fn hit_after(limits: &Limits, sizes: Sizes, changes: &[Change]) -> Option<Hit>
    ensures { result ≡ hit_after limits.now sizes changes.now }
{
    match first_after_above(limits.file_bytes, changes) {
        Some(number) => Some(Hit {
            which: Which::FileBytes,
            would_be: number,
        }),
        None => size_hit(limits, sizes),
    }
}
