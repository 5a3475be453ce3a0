// What the store where the words say holds is emitted.
ghost use Rattle.std.specs.Prelude.{◌≡◌, true};
ghost use Rattle.wse_path.specs.Limits.{standard};
ghost use Rattle.wse_apply.specs.Limit.{are_within};
ghost use Rattle.wse_stream.specs.Causes.{CountsFault};
ghost use Rattle.wse_stream.specs.Scene.{disk_at};
ghost use Rattle.wse_show.specs.Show.{show_text};
ghost use Rattle.wse_run.specs.End.{ending_of};
ghost use Rattle.wsedit.specs.Showing.{HasEmittedOr, Shows};

use std::alloc::Global;
use wse_disk::{Disk, Failed, Place};
use wse_engine::Engine;
use wse_io::{Sink, WriteFailed, emit_all};
use wse_path::{Limits, Memory};
use wse_run::{RanStore, RunEnd, unopened};
use wse_show::show_text;
use wse_words::Places;

/// Emits the text.
fn emit_text<K: Sink, D: Disk>(out: &mut K, disk: &D, text: &[u8]) -> RunEnd
    ensures emitted { HasEmittedOr text.now (D.moment_of disk.now) (D.moment_of disk.now) (K.pieces out.old) (K.pieces out.new) result }
    ensures sink { CountsFault (ending_of result).write (K.faults out.old) (K.faults out.new) }
{
    match emit_all(out, disk, text) {
        Ok(()) => RunEnd::Done,
        Err(WriteFailed) => RunEnd::Write,
    }
}

/// Emits what the engine's store holds. All memory is taken before the first piece.
fn emit_store<K: Sink, D: Disk>(alloc: Global, engine: &Engine<D>, out: &mut K) -> RunEnd
    ensures emitted { HasEmittedOr (show_text engine.now.state) (D.moment_of engine.now.disk) (D.moment_of engine.now.disk)
        (K.pieces out.old) (K.pieces out.new) result }
    ensures sink { CountsFault (ending_of result).write (K.faults out.old) (K.faults out.new) }
{
    match show_text(alloc, engine.history()) {
        Ok(text) => emit_text(out, engine.disk(), text.as_slice()),
        Err(Memory) => RunEnd::Memory,
    }
}

/// Opens the store on the disk without adopting, and emits what it holds.
fn show_store<K: Sink, D: Disk>(alloc: Global, disk: D, limits: Limits, out: &mut K) -> RanStore<D>
    requires { are_within limits standard ≡ true }
    ensures shows { Shows limits (disk_at D.moment_of D.told disk) (disk_at D.moment_of D.told result.disk)
        (K.pieces out.old) (K.pieces out.new) result.end }
    ensures sink { CountsFault (ending_of result.end).write (K.faults out.old) (K.faults out.new) }
    ensures cause { CountsFault (ending_of result.end).disk (D.faults disk) (D.faults result.disk) }
{
    match Engine::start(alloc, disk, false, limits) {
        Ok(engine) => {
            let end = emit_store(alloc, &engine, out);
            RanStore {
                disk: engine.into_disk(),
                end,
            }
        }
        Err(fault) => unopened(fault),
    }
}

/// Places the disk where the words say, opens the store there without adopting, and emits what it holds.
pub fn place_and_show<K: Sink, D: Place>(
    alloc: Global,
    places: Places<'_>,
    disk: D,
    limits: Limits,
    out: &mut K,
) -> RanStore<D>
    requires { are_within limits standard ≡ true }
    ensures shows { Shows limits (disk_at D.moment_of D.told disk) (disk_at D.moment_of D.told result.disk)
        (K.pieces out.old) (K.pieces out.new) result.end }
    ensures sink { CountsFault (ending_of result.end).write (K.faults out.old) (K.faults out.new) }
    ensures cause { CountsFault (ending_of result.end).disk (D.faults disk) (D.faults result.disk) }
{
    let mut disk = disk;
    match disk.place(places.tree, places.store) {
        Ok(()) => show_store(alloc, disk, limits, out),
        Err(Failed) => RanStore {
            disk,
            end: RunEnd::Disk,
        },
    }
}
