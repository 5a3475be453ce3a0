// The whole state of a history, in plain lists.
ghost use Rattle.std.specs.Prelude.{◌≡◌, IfOk};
ghost use Rattle.wse_slow_history.specs.Slow.{state_of};

use std::alloc::Global;
use wse_element::Element;
use wse_locks::Locks;
use wse_path::{Bytes, Duplicate, Memory, RelPath};
use wse_plain::copies;

/// The whole state of a history, each list as the definition of a step has it. This project's own.
#[derive(Drop)]
pub struct SlowState {
    /// The files, in path order.
    pub files: Vec<(RelPath, Bytes)>,
    /// The versions of paths, in path order.
    pub versions: Vec<(RelPath, u32)>,
    /// The elements, in order of making.
    pub records: Vec<Element>,
    /// The next free id.
    pub next_id: u64,
    /// How many commands were recorded.
    pub serial: u64,
    /// Who holds which path.
    pub locks: Locks,
}

fn copied_files(alloc: Global, files: &[(RelPath, Bytes)]) -> Result<Vec<(RelPath, Bytes)>, Memory>
    ensures { IfOk result (λ copy. copy.items ≡ files.now) }
{
    let mut copy = Vec::with_capacity(alloc, files.len())?;
    for file in files {
        copy.push((file.0.duplicate(alloc)?, file.1.duplicate(alloc)?))?;
    }
    Ok(copy)
}

pub(crate) fn copied_versions(
    alloc: Global,
    versions: &[(RelPath, u32)],
) -> Result<Vec<(RelPath, u32)>, Memory>
    ensures { IfOk result (λ copy. copy.items ≡ versions.now) }
{
    let mut copy = Vec::with_capacity(alloc, versions.len())?;
    for version in versions {
        copy.push((version.0.duplicate(alloc)?, version.1))?;
    }
    Ok(copy)
}

impl SlowState {
    /// An equal state.
    pub fn duplicate(&self, alloc: Global) -> Result<SlowState, Memory>
        ensures { IfOk result (λ copy. state_of copy ≡ state_of self.now) }
    {
        Ok(SlowState {
            files: copied_files(alloc, self.files.as_slice())?,
            versions: copied_versions(alloc, self.versions.as_slice())?,
            records: copies(alloc, self.records.as_slice())?,
            next_id: self.next_id,
            serial: self.serial,
            locks: self.locks.duplicate(alloc)?,
        })
    }
}
