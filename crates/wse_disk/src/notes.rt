// Calls that are done and noted, or leave all as it was.
ghost use Rattle.std.specs.Prelude.{◌≡◌, ◌≢◌, ◌+◌, ◌<◌, ◌^◌, ◌∷◌, ◌++◌, [], None, false, length, if◌then◌else◌, OnOk, OnErr};
ghost use Rattle.wse_path.specs.Tree.{Entries, put_file, remove_file, HasRoom};
ghost use Rattle.wse_disk.specs.Reading.Write.{Patches};
ghost use Rattle.wse_disk.specs.Replay.{held, first_of, laid};

use crate::area::Area;
use crate::areas::Areas;
use crate::call::Call;
use crate::draft::Draft;
use crate::lazy::LazyTree;
use std::alloc::Global;
use wse_path::{Duplicate, Memory, RelPath, copy_bytes};

/// Keeps apart what is held, unless that was done before.
pub fn keep_first(
    alloc: Global,
    first: &mut Option<Draft>,
    files: &mut LazyTree,
    areas: &Areas,
) -> Result<(), Memory>
    ensures files { files.new.files ≡ files.old.files }
    ensures first { first_of first.new (held files.new.files areas.now) ≡ first_of first.old (held files.old.files areas.now) }
    ensures kept { OnOk result (first.new ≢ None) }
    ensures none { first.new ≡ None → first.old ≡ None }
    ensures made { first.new ≡ None → files.new.changes ≡ [] }
{
    match first {
        Some(_) => Ok(()),
        None => {
            files.settle();
            let draft = Draft::of(alloc, files.tree(), areas)?;
            *first = Some(draft);
            Ok(())
        }
    }
}

/// Stores the bytes, unless the call is to fail, and notes it.
pub fn store_noted(
    alloc: Global,
    files: &mut LazyTree,
    calls: &mut Vec<Call>,
    path: &RelPath,
    bytes: &[u8],
    failed: bool,
) -> Result<(), Memory>
    requires { HasRoom files.old.files path.now }
    ensures noted { OnOk result (calls.new.items ≡ calls.old.items ++ Call.Store path.now bytes.now failed ∷ []) }
    ensures stored { OnOk result (files.new.files ≡ (if failed then files.old.files else put_file files.old.files path.now bytes.now)) }
    ensures same_calls { OnErr result (calls.new.items ≡ calls.old.items) }
    ensures same { OnErr result (files.new.files ≡ files.old.files) }
{
    calls.reserve(1)?;
    let call = Call::Store {
        path: path.duplicate(alloc)?,
        bytes: copy_bytes(alloc, bytes)?,
        failed,
    };
    if failed {
        calls.push_reserved(call);
        return Ok(());
    }
    files.put(path, bytes)?;
    calls.push_reserved(call);
    Ok(())
}

/// Erases the path, unless the call is to fail, and notes it.
pub fn erase_noted(
    alloc: Global,
    files: &mut LazyTree,
    calls: &mut Vec<Call>,
    path: &RelPath,
    failed: bool,
) -> Result<(), Memory>
    ensures noted { OnOk result (calls.new.items ≡ calls.old.items ++ Call.Erase path.now failed ∷ []) }
    ensures erased { OnOk result (files.new.files ≡ (if failed then files.old.files else remove_file files.old.files path.now)) }
    ensures same_calls { OnErr result (calls.new.items ≡ calls.old.items) }
    ensures same { OnErr result (files.new.files ≡ files.old.files) }
{
    calls.reserve(1)?;
    let call = Call::Erase {
        path: path.duplicate(alloc)?,
        failed,
    };
    if failed {
        calls.push_reserved(call);
        return Ok(());
    }
    files.remove(path);
    calls.push_reserved(call);
    Ok(())
}

/// Writes into the area, unless the call is to fail, and notes it.
pub fn patch_noted(
    alloc: Global,
    areas: &mut Areas,
    calls: &mut Vec<Call>,
    area: Area,
    at: u64,
    bytes: &[u8],
    failed: bool,
) -> Result<(), Memory>
    ensures noted { OnOk result (calls.new.items ≡ calls.old.items ++ Call.Patch area at bytes.now failed ∷ []) }
    ensures patched { OnOk result ((files : Entries) → held files areas.new ≡ (if failed then held files areas.old else laid (Patches area at bytes.now) (held files areas.old))) }
    ensures same_calls { OnErr result (calls.new.items ≡ calls.old.items) }
    ensures same { OnErr result ((files : Entries) → held files areas.new ≡ held files areas.old) }
    ensures bounded { OnOk result (failed ≡ false → at + length bytes.now < 2 ^ 63) }
{
    calls.reserve(1)?;
    let call = Call::Patch {
        area,
        at,
        bytes: copy_bytes(alloc, bytes)?,
        failed,
    };
    if failed {
        calls.push_reserved(call);
        return Ok(());
    }
    areas.patch(area, at as usize, bytes)?;
    calls.push_reserved(call);
    Ok(())
}

/// Notes a sync.
pub fn sync_noted(calls: &mut Vec<Call>, failed: bool) -> Result<(), Memory>
    ensures noted { OnOk result (calls.new.items ≡ calls.old.items ++ Call.Sync failed ∷ []) }
    ensures same_calls { OnErr result (calls.new.items ≡ calls.old.items) }
{
    calls.push(Call::Sync { failed })?;
    Ok(())
}
