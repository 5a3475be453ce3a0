// A store is opened, and the lines of a source are answered.
ghost use Rattle.std.specs.Prelude.{◌≡◌, ℕ, ◌≤◌, ◌^◌, List, true, Some};
ghost use Rattle.wse_path.specs.Limits.{standard};
ghost use Rattle.wse_apply.specs.Limit.{are_within};
ghost use Rattle.wse_disk.specs.Standing.{Standing};
ghost use Rattle.wse_uri.specs.FileUrl.{IsPlainFileUrl};
ghost use Rattle.wse_stream.specs.Runs.{HasCauses};
ghost use Rattle.wse_stream.specs.Scene.{disk_at, scene, faults};
ghost use Rattle.wse_recover.specs.Open.{disk_of_fault};
ghost use Rattle.wse_promise.specs.Work.{KeepsWork};
ghost use Rattle.wse_run.specs.Complete.{IsOpenable, IsCalm, IsDoneOrStarved};
ghost use Rattle.wse_run.specs.End.{ending_of};
ghost use Rattle.wse_run.specs.Fault.{end_of_fault};
ghost use Rattle.wse_run.specs.Run.{setting_of, RunsStore};

use crate::end::{RunEnd, end_of_served};
use std::alloc::Global;
use url::Url;
use wse_disk::Disk;
use wse_engine::Engine;
use wse_io::{Sink, Source};
use wse_path::{Hit, Limits};
use wse_recover::OpenFault;
use wse_server::{Served, serve};
use wse_store::server_of;

/// What a run over a store is held to.
#[derive(Drop)]
pub struct StoreRun {
    /// The URL below which the URIs of lines name paths: a file URL without host, query and fragment.
    pub root: Url,
    /// Whether paths whose content differs from the history's are adopted.
    pub adopt: bool,
    pub limits: Limits,
    /// The most bytes of input that are read as lines, from 1 to 2^62.
    pub max_input: u64,
}

/// The disk after a run, and how the run ended.
pub struct RanStore<D: Disk> {
    pub disk: D,
    pub end: RunEnd,
}

/// The end of a run whose store wasn't opened.
pub fn unopened<D: Disk>(fault: OpenFault<D>) -> RanStore<D>
    ensures end { result.end ≡ end_of_fault fault }
    ensures disk { result.disk ≡ disk_of_fault fault }
{
    match fault {
        OpenFault::Disk(disk) => RanStore {
            disk,
            end: RunEnd::Disk,
        },
        OpenFault::NotAStore { disk, at } => RanStore {
            disk,
            end: RunEnd::NotAStore { at },
        },
        OpenFault::TooBig { disk, which, found } => RanStore {
            disk,
            end: RunEnd::TooBig(Hit {
                which,
                would_be: found,
            }),
        },
        OpenFault::Differs { disk, path } => RanStore {
            disk,
            end: RunEnd::Differs(path),
        },
        OpenFault::Memory(disk) => RanStore {
            disk,
            end: RunEnd::Memory,
        },
    }
}

/// Tells of the lines that come behind the engine: no undo among them destroys work which its element didn't make. Does nothing
/// at run time.
fn kept<D: Disk>(engine: &Engine<D>, root: &Url)
    ensures { (lines : List (List ℕ)) → KeepsWork (setting_of root.now engine.now.limits) engine.now.state lines }
{
    let _ = engine.history().limits();
}

/// Opens the store on the disk, and answers the lines of the source, to its end or to the first fault.
///
/// - What is emitted is a front of the answers of the store's machine from the state in which the run begins, and all of them
///   where the run is done. That state is the one for which what is read stands, or with `adopt` what adopting makes of it.
/// - A crash at any moment leaves what stands for the state after a front of the lines to which all that was out by then are
///   answers. Before the first piece it may also be what a crash might have left at the start, or what stands for the state
///   for which the disk was opened.
/// - Where a line is answered as done of an element by undo, and a line of this run made the element's origin, the undo found
///   at the element's paths what that line left, leaves there what that line found, and leaves every other path. A redo of it on
///   the next line leaves the tree that the undo found.
/// - A store that isn't opened says exactly why, and no line is read. Nothing is adopted then, unless the disk failed.
/// - No count of faults falls, and only that of what failed rose.
/// - Where nothing fails, none of the causes for a refusal holds and the source has no more bytes than may be read, all is
///   done, unless there is no memory.
pub fn run_store<D: Disk, S: Source, K: Sink>(
    alloc: Global,
    disk: D,
    run: StoreRun,
    source: &mut S,
    out: &mut K,
) -> RanStore<D>
    requires plain { IsPlainFileUrl run.root }
    requires within { are_within run.limits standard ≡ true }
    requires some { 1 ≤ run.max_input }
    requires countable { run.max_input ≤ 2 ^ 62 }
    ensures run { RunsStore run.root run.adopt run.limits run.max_input
        (scene (S.left source.old) (K.pieces out.old) (disk_at D.moment_of D.told disk))
        (scene (S.left source.new) (K.pieces out.new) (disk_at D.moment_of D.told result.disk))
        result.end }
    ensures causes { HasCauses (ending_of result.end)
        (faults (S.faults source.old) (K.faults out.old) (D.faults disk))
        (faults (S.faults source.new) (K.faults out.new) (D.faults result.disk)) }
    ensures complete { (s : Standing) → D.told disk ≡ Some s → IsOpenable run.adopt run.limits s.reading
        → IsCalm run.max_input (S.left source.old)
        (faults (S.faults source.old) (K.faults out.old) (D.faults disk))
        (faults (S.faults source.new) (K.faults out.new) (D.faults result.disk))
        → IsDoneOrStarved result.end }
{
    let StoreRun {
        root,
        adopt,
        limits,
        max_input,
    } = run;
    let engine = match Engine::start(alloc, disk, adopt, limits) {
        Ok(engine) => engine,
        Err(fault) => return unopened(fault),
    };
    kept(&engine, &root);
    let server = server_of(engine, root);
    let Served { disk, end } = serve(alloc, server, source, out, max_input);
    RanStore {
        disk,
        end: end_of_served(max_input, end),
    }
}
