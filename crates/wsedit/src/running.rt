// Lines are answered over the store where the words say.
ghost use Rattle.std.specs.Prelude.{◌≡◌, ◌≤◌, ◌^◌, true};
ghost use Rattle.wse_path.specs.Limits.{standard};
ghost use Rattle.wse_apply.specs.Limit.{are_within};
ghost use Rattle.wse_uri.specs.FileUrl.{IsPlainFileUrl};
ghost use Rattle.wse_stream.specs.Runs.{HasCauses};
ghost use Rattle.wse_stream.specs.Scene.{disk_at, scene, faults};
ghost use Rattle.wse_run.specs.End.{ending_of};
ghost use Rattle.wse_run.specs.Run.{RunsStore};

use std::alloc::Global;
use wse_disk::{Failed, Place};
use wse_io::{Sink, Source};
use wse_run::{RanStore, RunEnd, StoreRun, run_store};
use wse_words::Places;

/// Places the disk where the words say, opens the store there, and answers the lines of the source.
pub fn place_and_run<S: Source, K: Sink, D: Place>(
    alloc: Global,
    places: Places<'_>,
    run: StoreRun,
    source: &mut S,
    out: &mut K,
    disk: D,
) -> RanStore<D>
    requires plain { IsPlainFileUrl run.root }
    requires within { are_within run.limits standard ≡ true }
    requires some { 1 ≤ run.max_input }
    requires countable { run.max_input ≤ 2 ^ 62 }
    ensures run { RunsStore run.root run.adopt run.limits run.max_input
        (scene (S.left source.old) (K.pieces out.old) (disk_at D.moment_of D.told disk))
        (scene (S.left source.new) (K.pieces out.new) (disk_at D.moment_of D.told result.disk))
        result.end }
    ensures causes { HasCauses (ending_of result.end)
        (faults (S.faults source.old) (K.faults out.old) (D.faults disk))
        (faults (S.faults source.new) (K.faults out.new) (D.faults result.disk)) }
{
    let mut disk = disk;
    match disk.place(places.tree, places.store) {
        Ok(()) => run_store(alloc, disk, run, source, out),
        Err(Failed) => RanStore {
            disk,
            end: RunEnd::Disk,
        },
    }
}
