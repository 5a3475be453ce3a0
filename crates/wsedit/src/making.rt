// A store is made where the words say.
ghost use Rattle.std.specs.Prelude.{◌≡◌, ◌≤◌, true};
ghost use Rattle.wse_path.specs.Limits.{standard};
ghost use Rattle.wse_apply.specs.Limit.{are_within};
ghost use Rattle.wse_stream.specs.Causes.{CountsFault};
ghost use Rattle.wse_run.specs.End.{ending_of};
ghost use Rattle.wsedit.specs.Making.{HasMadeOr};

use std::alloc::Global;
use wse_disk::{Disk, Failed, Place};
use wse_path::{Hit, Limits};
use wse_recover::{InitFault, init_store};
use wse_run::{RanStore, RunEnd};
use wse_words::Places;

/// Makes a store over the tree that the disk holds.
fn make_store<D: Disk>(alloc: Global, disk: D, limits: &Limits) -> RanStore<D>
    requires { are_within limits.now standard ≡ true }
    ensures made { HasMadeOr limits.now (D.told disk) (D.told result.disk) result.end }
    ensures later { D.moment_of disk ≤ D.moment_of result.disk }
    ensures cause { CountsFault (ending_of result.end).disk (D.faults disk) (D.faults result.disk) }
{
    match init_store(alloc, disk, limits) {
        Ok(disk) => RanStore {
            disk,
            end: RunEnd::Done,
        },
        Err(InitFault::Disk(disk)) => RanStore {
            disk,
            end: RunEnd::Disk,
        },
        Err(InitFault::TooBig { disk, which, found }) => RanStore {
            disk,
            end: RunEnd::TooBig(Hit {
                which,
                would_be: found,
            }),
        },
        Err(InitFault::Memory(disk)) => RanStore {
            disk,
            end: RunEnd::Memory,
        },
    }
}

/// Places the disk where the words say, and makes a store over the tree that it holds there.
pub fn place_and_make<D: Place>(
    alloc: Global,
    places: Places<'_>,
    disk: D,
    limits: &Limits,
) -> RanStore<D>
    requires { are_within limits.now standard ≡ true }
    ensures made { HasMadeOr limits.now (D.told disk) (D.told result.disk) result.end }
    ensures later { D.moment_of disk ≤ D.moment_of result.disk }
    ensures cause { CountsFault (ending_of result.end).disk (D.faults disk) (D.faults result.disk) }
{
    let mut disk = disk;
    match disk.place(places.tree, places.store) {
        Ok(()) => make_store(alloc, disk, limits),
        Err(Failed) => RanStore {
            disk,
            end: RunEnd::Disk,
        },
    }
}
