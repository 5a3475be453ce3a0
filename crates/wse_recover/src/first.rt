// What a new store keeps.
ghost use Rattle.std.specs.Prelude.{◌≡◌, ◌+◌, ◌≤◌, ◌<◌, [], true, None, length, map, OnOk, IfOk, IfErr};
ghost use Rattle.std.specs.List.{All};
ghost use Rattle.std.specs.FinMap.{is_sorted};
ghost use Rattle.wse_path.specs.Order.{path_cmp};
ghost use Rattle.wse_path.specs.Tree.{Entries};
ghost use Rattle.wse_path.specs.Limits.{standard};
ghost use Rattle.wse_apply.specs.Limit.{are_within};
ghost use Rattle.wse_recover.specs.First.{SpellsNew, SpellsNewStore};
ghost use Rattle.wse_recover.specs.Init.{HasMakingCause, RefusesTree};
ghost use Rattle.wse_recover.specs.Measure.{TellsHit};
ghost use Rattle.wse_recover.specs.Versions.{is_behind_last, with_first, with_firsts, HasShortText};

use crate::fault::Unmade;
use crate::measure::measure;
use std::alloc::Global;
use wse_codec::{Snapshot, write_state};
use wse_disk::Disk;
use wse_element::Elements;
use wse_log::fresh_journal;
use wse_path::{Bumps, Limits, Memory, Numbered, RelPath};

// Whether the path comes behind the last one.
fn is_behind(versions: &[Numbered], path: &RelPath) -> bool
    ensures { result ≡ is_behind_last versions.now path.now }
{
    match versions.last() {
        Some(last) => last.path.cmp(path).is_lt(),
        None => true,
    }
}

// Gives the path its first version, unless it doesn't come behind the last one.
fn add_version(versions: &mut Vec<Numbered>, path: RelPath) -> Result<(), Memory>
    requires short { All HasShortText versions.old.items }
    ensures added { OnOk result (versions.new.items ≡ with_first versions.old.items path) }
    ensures short { OnOk result (All HasShortText versions.new.items) }
    ensures few { OnOk result (length versions.new.items ≤ length versions.old.items + 1) }
{
    if !is_behind(versions, &path) {
        return Ok(());
    }
    let _ = path.text_len();
    versions.push(Numbered { path, number: 1 })?;
    Ok(())
}

// The first versions of these paths. Of paths that don't rise, which only a disk that tells nothing may name, those that come
// behind the ones before them stand.
fn versions_of(alloc: Global, paths: Vec<RelPath>) -> Result<Vec<Numbered>, Memory>
    ensures versions { IfOk result (λ versions. versions.items ≡ with_firsts [] paths.items) }
    ensures short { IfOk result (λ versions. All HasShortText versions.items) }
{
    let mut versions = Vec::with_capacity(alloc, paths.len())?;
    for path in paths {
        add_version(&mut versions, path)?;
    }
    Ok(versions)
}

// The journal of a new store over files with these paths.
fn new_store(alloc: Global, paths: Vec<RelPath>) -> Result<Vec<u8>, Memory>
    requires few { length paths.items ≤ 65536 }
    ensures spelled { IfOk result (λ bytes. (files : Entries) → paths.items ≡ map (λ e. e.0) files → is_sorted path_cmp files ≡ true → SpellsNew files bytes.items) }
    ensures some { IfOk result (λ bytes. 0 < length bytes.items) }
{
    let versions = versions_of(alloc, paths)?;
    let state = Snapshot {
        serial: 0,
        next_id: 1,
        versions: Bumps::new(versions),
        elements: Elements::new(Vec::new(alloc)),
    };
    let body = write_state(alloc, &state)?;
    fresh_journal(alloc, body.as_slice())
}

/// The journal of a new store over the tree that the disk holds, unless that is too big.
pub(crate) fn first_journal<D: Disk>(
    alloc: Global,
    disk: &mut D,
    limits: &Limits,
) -> Result<Vec<u8>, Unmade>
    requires within { are_within limits.now standard ≡ true }
    ensures spelled { IfOk result (λ bytes. SpellsNewStore (D.told disk.old) bytes.items) }
    ensures some { IfOk result (λ bytes. 0 < length bytes.items) }
    ensures fits { OnOk result (TellsHit (D.told disk.old) limits.now None) }
    ensures refused { IfErr result (RefusesTree (D.told disk.old) limits.now) }
    ensures same { D.told disk.new ≡ D.told disk.old }
    ensures later { D.moment_of disk.old ≤ D.moment_of disk.new }
    ensures cause { HasMakingCause (D.faults disk.old) (D.faults disk.new) result }
{
    let mut paths = Vec::new(alloc);
    disk.names(alloc, &mut paths)?;
    if let Some(hit) = measure(disk, paths.as_slice(), limits)? {
        return Err(Unmade::TooBig(hit));
    }
    Ok(new_store(alloc, paths)?)
}
