// One command written to a disk, through the four calls.
ghost use Rattle.std.specs.Prelude.{IfOk};
ghost use Rattle.wse_codec.specs.Allowed.{IsSpellable};

use crate::store::{JOURNAL, RECORD, bytes, path, tree};
use std::alloc::Global;
use std::test::Fail;
use wse_codec::read_record;
use wse_disk::{Area, Disk, MemDisk};
use wse_element::Plan;
use wse_path::{Bytes, Change, Changes};
use wse_quiet_disk::QuietDisk;
use wse_txn::{DraftRefused, Drafted, Idle, Sealed, Settled};

// The place of the closed gate before the command.
const GATE: u64 = 39;

// The empty file `a` is made.
fn changes(alloc: Global) -> Result<Changes, Fail> {
    let mut all = Vec::new(alloc);
    all.push(Change {
        path: path(alloc, "a")?,
        before: None,
        after: Some(Bytes::new(Vec::new(alloc))),
    })?;
    Ok(Changes::new(all))
}

#[tactic(auto, using(crate::proofs::Writable::writable))]
fn plan(alloc: Global) -> Result<Plan, Fail>
    ensures { IfOk result (λ plan. IsSpellable plan.effects) }
{
    let changes = changes(alloc)?;
    let body = bytes(alloc, RECORD)?;
    if body.len() > 2000 {
        return Err(Fail::new("long"));
    }
    let effects = read_record(alloc, &body)?;
    Ok(Plan { effects, changes })
}

// A disk with the file `k` and the journal before the command, synced, whose calls with these numbers fail. The first two make
// it.
fn disk(alloc: Global, fails: Vec<u64>) -> Result<QuietDisk, Fail> {
    let mut quiet = QuietDisk::new(MemDisk::new(alloc, tree(alloc, "k=k")?, fails));
    let mut journal = bytes(alloc, JOURNAL)?;
    journal.truncate(39);
    journal.push(0)?;
    let _ = quiet.area_write(Area::LogA, 0, &journal);
    let _ = quiet.sync();
    Ok(quiet)
}

fn drafted(alloc: Global, fails: Vec<u64>) -> Result<Drafted<QuietDisk>, Fail> {
    let plan = plan(alloc)?;
    match Idle::at(disk(alloc, fails)?, Area::LogA, GATE).draft(alloc, plan) {
        Ok(drafted) => Ok(drafted),
        Err(DraftRefused::Memory(idle)) => {
            let _ = idle.into_disk();
            Err(Fail::new("memory"))
        }
    }
}

fn sealed(drafted: Drafted<QuietDisk>) -> MemDisk {
    match drafted.seal() {
        Ok(sealed) => settled(sealed),
        Err(broken) => broken.into_disk().disk,
    }
}

fn settled(sealed: Sealed<QuietDisk>) -> MemDisk {
    match sealed.settle() {
        Ok(settled) => closed(settled),
        Err(broken) => broken.into_disk().disk,
    }
}

fn closed(settled: Settled<QuietDisk>) -> MemDisk {
    match settled.close() {
        Ok((idle, _)) => idle.into_disk().disk,
        Err(broken) => broken.into_disk().disk,
    }
}

/// The disk behind all calls of the command, or behind the one that failed, of those with these numbers.
pub fn run(alloc: Global, fails: Vec<u64>) -> Result<MemDisk, Fail> {
    Ok(sealed(drafted(alloc, fails)?))
}
