// Whether limits and a tree are such that edits can be performed.
ghost use Rattle.std.specs.Prelude.{◌≡◌, ◌<◌, ℕ, List, length, slice_index_or};
ghost use Rattle.wse_path.specs.Path.{Path};
ghost use Rattle.wse_path.specs.Limits.{standard};
ghost use Rattle.wse_apply.specs.Limit.{first_above, limit_hit, are_within};

use crate::sizes::{Sizes, size_hit};
use wse_path::{Hit, Limits, Tree, Which};

/// Whether no limit is above that of the program.
pub fn are_within_standard(limits: &Limits) -> bool
    ensures { result ≡ are_within limits.now standard }
{
    let standard = Limits::standard();
    limits.files <= standard.files
        && limits.file_bytes <= standard.file_bytes
        && limits.tree_bytes <= standard.tree_bytes
        && limits.known <= standard.known
        && limits.weight <= standard.weight
        && limits.serial <= standard.serial
}

/// The bytes of the file with that index in path order.
fn bytes_at(tree: &Tree, index: usize) -> &[u8]
    requires { index < length tree.now.files }
    ensures { (d : Path × List ℕ) → result.now ≡ (slice_index_or tree.now.files index d).1 }
{
    let path = tree.path_at(index).unwrap();
    tree.get(path).unwrap()
}

/// The bytes of the first file, in path order, that has more than these.
fn first_above(limit: u64, tree: &Tree) -> Option<u64>
    ensures { result ≡ first_above limit tree.now.files }
{
    for index in 0..tree.count() {
        let number = bytes_at(tree, index).len() as u64;
        if number > limit {
            return Some(number);
        }
    }
    None
}

/// The first limit that the tree passes: of the bytes of a file, of files, of the bytes of all files. Looks at each file,
/// and takes no memory.
pub fn limit_hit(limits: &Limits, tree: &Tree) -> Option<Hit>
    ensures { result ≡ limit_hit limits.now tree.now.files }
{
    match first_above(limits.file_bytes, tree) {
        Some(number) => Some(Hit {
            which: Which::FileBytes,
            would_be: number,
        }),
        None => size_hit(limits, Sizes::of(tree)),
    }
}
