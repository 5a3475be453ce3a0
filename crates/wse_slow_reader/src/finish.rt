// The files of a store, in which an unsettled last record is made.
ghost use Rattle.std.specs.Prelude.{◌≡◌, None, IfOk};
ghost use Rattle.std.specs.List.{last_or};
ghost use Rattle.std.specs.Option.{option_copied};
ghost use Rattle.wse_txn.specs.Stands.{ends_settled, finished};

use crate::record::RawRecord;
use std::alloc::Global;
use wse_path::{Bytes, Duplicate, Memory, RelPath};
use wse_plain::{Contents, Files, set_files};

// Equal files.
fn copies(alloc: Global, files: &[(RelPath, Bytes)]) -> Result<Files, Memory>
    ensures { IfOk result (λ all. all.items ≡ files.now) }
{
    let mut all = Vec::new(alloc);
    for file in files {
        all.push((file.0.duplicate(alloc)?, file.1.duplicate(alloc)?))?;
    }
    Ok(all)
}

fn last_of(records: &[RawRecord]) -> Option<&RawRecord>
    ensures { option_copied result ≡ last_or None records.now }
{
    records.last()
}

// Whether the last record is settled.
fn ends_settled(records: &[RawRecord]) -> bool
    ensures { result ≡ ends_settled records.now }
{
    match last_of(records) {
        Some(last) => last.is_settled(),
        None => true,
    }
}

/// The files with what the last record sets, where it isn't settled. This project's own rule.
pub(crate) fn finished(
    alloc: Global,
    records: &[RawRecord],
    sets: Contents,
    files: &[(RelPath, Bytes)],
) -> Result<Files, Memory>
    ensures { IfOk result (λ all. all.items ≡ finished records.now sets.items files.now) }
{
    let all = copies(alloc, files)?;
    if ends_settled(records) {
        return Ok(all);
    }
    set_files(sets, all)
}
