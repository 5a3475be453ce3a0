// The tree that a disk holds.
ghost use Rattle.std.specs.Prelude.{◌≡◌, ◌≤◌, IfOk, OnOk};
ghost use Rattle.wse_disk.specs.Causes.{HasReadCause};
ghost use Rattle.wse_disk.specs.Told.{ReadsFiles};
ghost use Rattle.wse_recover.specs.Load.{LoadsFile};

use std::alloc::Global;
use wse_disk::{Disk, ReadErr};
use wse_path::{Bytes, Memory, RelPath, Tree};

// Puts a file of the disk into the tree, unless the tree has no room there.
fn load_file<D: Disk>(
    alloc: Global,
    disk: &mut D,
    tree: &mut Tree,
    path: RelPath,
) -> Result<(), ReadErr>
    ensures loaded { OnOk result (LoadsFile (D.told disk.old) path tree.old.files tree.new.files) }
    ensures same { D.told disk.new ≡ D.told disk.old }
    ensures later { D.moment_of disk.old ≤ D.moment_of disk.new }
    ensures cause { HasReadCause (D.faults disk.old) (D.faults disk.new) result }
{
    let mut bytes = Vec::new(alloc);
    if !disk.load(alloc, &path, &mut bytes)? {
        return Ok(());
    }
    if !tree.fits(&path) {
        return Ok(());
    }
    match tree.put(path, Bytes::new(bytes)) {
        Ok(()) => Ok(()),
        Err(Memory) => Err(ReadErr::Memory),
    }
}

/// The tree that the disk holds. Of paths that are no tree, which only a disk that tells nothing may name, the first stand.
pub(crate) fn load_tree<D: Disk>(alloc: Global, disk: &mut D) -> Result<Tree, ReadErr>
    ensures loaded { IfOk result (λ tree. ReadsFiles (D.told disk.old) tree.files) }
    ensures same { D.told disk.new ≡ D.told disk.old }
    ensures later { D.moment_of disk.old ≤ D.moment_of disk.new }
    ensures cause { HasReadCause (D.faults disk.old) (D.faults disk.new) result }
{
    let mut paths = Vec::new(alloc);
    disk.names(alloc, &mut paths)?;
    let mut tree = Tree::new(alloc);
    for path in paths {
        load_file(alloc, disk, &mut tree, path)?;
    }
    Ok(tree)
}
