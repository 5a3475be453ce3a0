// A plan through the four calls.
ghost use Rattle.std.specs.Prelude.{IfOk};
ghost use Rattle.wse_codec.specs.Allowed.{IsSpellable};

use crate::journal::{GATE, RECORD, bytes, disk, path};
use crate::quiet::Quiet;
use std::alloc::Global;
use std::test::Fail;
use wse_codec::read_record;
use wse_disk::{Area, MemDisk};
use wse_element::Plan;
use wse_path::{Bytes, Change, Changes};
use wse_txn::{DraftRefused, Drafted, Idle, Sealed, Settled};

/// How far a run came, and the disk.
#[derive(Drop)]
pub struct Ended {
    /// The name of the call that failed, or `done`.
    pub step: &'static str,
    pub disk: MemDisk,
}

// A word is a name and what the file gets behind a `=`, or the name alone where the file becomes absent.
fn change(alloc: Global, word: &str) -> Result<Change, Fail> {
    let (name, after) = match word.split_once('=') {
        Some((name, content)) => (name, Some(Bytes::new(content.as_bytes().to_vec(alloc)?))),
        None => (word, None),
    };
    Ok(Change {
        path: path(alloc, name)?,
        before: None,
        after,
    })
}

fn changes(alloc: Global, words: &str) -> Result<Changes, Fail> {
    let mut all = Vec::new(alloc);
    for word in words.split(' ') {
        all.push(change(alloc, word)?)?;
    }
    Ok(Changes::new(all))
}

// The worked record with these changes.
#[tactic(auto, using(crate::proofs::Writable::writable))]
fn plan(alloc: Global, words: &str) -> Result<Plan, Fail>
    ensures { IfOk result (λ plan. IsSpellable plan.effects) }
{
    let changes = changes(alloc, words)?;
    let body = bytes(alloc, RECORD)?;
    if body.len() > 2000 {
        return Err(Fail::new("long"));
    }
    let effects = read_record(alloc, &body)?;
    Ok(Plan { effects, changes })
}

fn draft(alloc: Global, disk: Quiet, words: &str) -> Result<Drafted<Quiet>, Fail> {
    let plan = plan(alloc, words)?;
    match Idle::at(disk, Area::LogA, GATE).draft(alloc, plan) {
        Ok(drafted) => Ok(drafted),
        Err(DraftRefused::Memory(idle)) => {
            let _ = idle.into_disk();
            Err(Fail::new("memory"))
        }
    }
}

fn sealed(drafted: Drafted<Quiet>) -> Ended {
    match drafted.seal() {
        Ok(sealed) => settled(sealed),
        Err(broken) => Ended {
            step: "seal",
            disk: broken.into_disk().disk,
        },
    }
}

fn settled(sealed: Sealed<Quiet>) -> Ended {
    match sealed.settle() {
        Ok(settled) => closed(settled),
        Err(broken) => Ended {
            step: "settle",
            disk: broken.into_disk().disk,
        },
    }
}

fn closed(settled: Settled<Quiet>) -> Ended {
    match settled.close() {
        Ok((idle, _)) => Ended {
            step: "done",
            disk: idle.into_disk().disk,
        },
        Err(broken) => Ended {
            step: "close",
            disk: broken.into_disk().disk,
        },
    }
}

/// All calls for these changes, over a disk whose calls with these numbers fail.
pub fn run(alloc: Global, words: &str, fails: Vec<u64>) -> Result<Ended, Fail> {
    Ok(sealed(draft(alloc, disk(alloc, fails)?, words)?))
}
