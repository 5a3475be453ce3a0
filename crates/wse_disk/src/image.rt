// What a crash after some calls may leave.
ghost use Rattle.std.specs.Prelude.{◌≡◌, IfOk};
ghost use Rattle.wse_path.specs.Tree.{IsTree};
ghost use Rattle.wse_disk.specs.Standing.{fresh};
ghost use Rattle.wse_disk.specs.Replay.{held, drafted, replay};
ghost use Rattle.wse_disk.specs.Chosen.{Picks, IsPicked};

use crate::areas::Areas;
use crate::call::{Call, count_synced};
use crate::draft::{Draft, tree_of};
use std::alloc::Global;
use wse_path::{Memory, Tree};

/// A tree and areas.
#[derive(Drop)]
pub struct Whole {
    pub tree: Tree,
    pub areas: Areas,
}

/// What is left, if it is a tree, and else the base.
fn pick(alloc: Global, base: Draft, left: Draft) -> Result<Whole, Memory>
    requires { IsTree base.files.entries }
    ensures { IfOk result (λ whole. Picks (drafted base) (drafted left) (held whole.tree.files whole.areas)) }
{
    match tree_of(alloc, &left.files)? {
        Some(tree) => {
            let Draft { files: _, areas } = left;
            Ok(Whole { tree, areas })
        }
        None => {
            let tree = tree_of(alloc, &base.files)?.unwrap();
            let Draft { files: _, areas } = base;
            Ok(Whole { tree, areas })
        }
    }
}

/// What a crash after the calls leaves by the choice, of a disk that held `start` before them.
pub fn image_after(
    alloc: Global,
    start: Draft,
    calls: &[Call],
    choice: u64,
) -> Result<Whole, Memory>
    requires { IsTree (replay (fresh (drafted start)) calls.now).pending.base.files }
    ensures { IfOk result (λ whole. IsPicked choice (replay (fresh (drafted start)) calls.now).pending (held whole.tree.files whole.areas)) }
{
    let count = count_synced(calls);
    let mut base = start;
    base.redo_all(alloc, &calls[..count])?;
    let mut left = base.duplicate(alloc)?;
    left.leave_all(alloc, &calls[count..], choice)?;
    pick(alloc, base, left)
}
