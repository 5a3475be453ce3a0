// The tree of a disk, unless it passes a limit.
ghost use Rattle.std.specs.Prelude.{◌≡◌, ◌≤◌, None, IfOk, IfErr};
ghost use Rattle.wse_apply.specs.Limit.{limit_hit};
ghost use Rattle.wse_disk.specs.Told.{ReadsFiles};
ghost use Rattle.wse_recover.specs.Init.{RefusesTree, HasMakingCause};
ghost use Rattle.wse_recover.specs.Start.{start_hit};

use crate::fault::Unmade;
use crate::load::load_tree;
use crate::measure::measure;
use std::alloc::Global;
use wse_apply::limit_hit;
use wse_disk::Disk;
use wse_path::{Hit, Limits, Tree, Which};

/// The first limit that a starting tree passes: files, bytes of a file, bytes of all files. Takes no memory.
fn start_hit(limits: &Limits, tree: &Tree) -> Option<Hit>
    ensures hit { result ≡ start_hit limits.now tree.now.files }
    ensures fits { result ≡ None → limit_hit limits.now tree.now.files ≡ None }
{
    let files = tree.count() as u64;
    if files > limits.files {
        return Some(Hit {
            which: Which::Files,
            would_be: files,
        });
    }
    limit_hit(limits, tree)
}

/// The tree that the disk holds, unless it passes a limit. Sizes come first, so that no tree is loaded that passes one; on a
/// disk that tells nothing they may be other sizes than those of what is loaded, which is tried too.
pub(crate) fn tree_within<D: Disk>(
    alloc: Global,
    disk: &mut D,
    limits: &Limits,
) -> Result<Tree, Unmade>
    ensures loaded { IfOk result (λ tree. ReadsFiles (D.told disk.old) tree.files) }
    ensures fits { IfOk result (λ tree. limit_hit limits.now tree.files ≡ None) }
    ensures starts { IfOk result (λ tree. start_hit limits.now tree.files ≡ None) }
    ensures refused { IfErr result (RefusesTree (D.told disk.old) limits.now) }
    ensures same { D.told disk.new ≡ D.told disk.old }
    ensures later { D.moment_of disk.old ≤ D.moment_of disk.new }
    ensures cause { HasMakingCause (D.faults disk.old) (D.faults disk.new) result }
{
    let mut paths = Vec::new(alloc);
    disk.names(alloc, &mut paths)?;
    if let Some(hit) = measure(disk, paths.as_slice(), limits)? {
        return Err(Unmade::TooBig(hit));
    }
    let tree = load_tree(alloc, disk)?;
    match start_hit(limits, &tree) {
        Some(hit) => Err(Unmade::TooBig(hit)),
        None => Ok(tree),
    }
}
