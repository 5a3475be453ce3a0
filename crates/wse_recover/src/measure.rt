// Whether the tree of a disk is too big, by its sizes alone.
ghost use Rattle.std.specs.Prelude.{◌≡◌, ◌≤◌, None, length, IfOk};
ghost use Rattle.wse_path.specs.Causes.{HasCause};
ghost use Rattle.wse_disk.specs.Calls.{ReadsNames};
ghost use Rattle.wse_recover.specs.Measure.{ReadsBytes, TellsHit};

use wse_disk::{Disk, Failed};
use wse_path::{Hit, Limits, RelPath, Which};

// How many bytes the file has: none where there is no file, which only a disk that tells nothing may say of a path that it
// named.
fn file_bytes<D: Disk>(disk: &mut D, path: &RelPath) -> Result<u64, Failed>
    ensures reads { IfOk result (ReadsBytes (D.told disk.old) path.now) }
    ensures same { D.told disk.new ≡ D.told disk.old }
    ensures later { D.moment_of disk.old ≤ D.moment_of disk.new }
    ensures cause { HasCause (D.faults disk.old) (D.faults disk.new) result }
{
    Ok(disk.size(path)?.unwrap_or(0))
}

/// The first limit that the files at these paths pass: files, bytes of a file, bytes of all files. Of the files it asks for
/// their sizes alone.
pub(crate) fn measure<D: Disk>(
    disk: &mut D,
    paths: &[RelPath],
    limits: &Limits,
) -> Result<Option<Hit>, Failed>
    requires names { ReadsNames (D.told disk.old) paths.now }
    ensures hit { IfOk result (TellsHit (D.told disk.old) limits.now) }
    ensures few { IfOk result (λ hit. hit ≡ None → length paths.now ≤ limits.now.files) }
    ensures same { D.told disk.new ≡ D.told disk.old }
    ensures later { D.moment_of disk.old ≤ D.moment_of disk.new }
    ensures cause { HasCause (D.faults disk.old) (D.faults disk.new) result }
{
    let count = paths.len() as u64;
    if count > limits.files {
        return Ok(Some(Hit {
            which: Which::Files,
            would_be: count,
        }));
    }
    let mut total: u64 = 0;
    for path in paths {
        let bytes = file_bytes(disk, path)?;
        if bytes > limits.file_bytes {
            return Ok(Some(Hit {
                which: Which::FileBytes,
                would_be: bytes,
            }));
        }
        total = total.saturating_add(bytes);
    }
    if total > limits.tree_bytes {
        return Ok(Some(Hit {
            which: Which::TreeBytes,
            would_be: total,
        }));
    }
    Ok(None)
}
