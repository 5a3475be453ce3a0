// The whole program over any source, sinks and disk.
ghost use Rattle.std.specs.Prelude.{◌≡◌, ◌⊎◌, ℕ, Bool, true, false, List, None, Some};
ghost use Rattle.url.specs.Parts.{Parts};
ghost use Rattle.wse_path.specs.Causes.{Rose};
ghost use Rattle.wse_path.specs.Limits.{standard};
ghost use Rattle.wse_apply.specs.Limit.{are_within};
ghost use Rattle.wse_disk.specs.Standing.{Standing};
ghost use Rattle.wse_recover.specs.Start.{start_hit};
ghost use Rattle.wse_stream.specs.Runs.{HasCauses};
ghost use Rattle.wse_stream.specs.Scene.{disk_at, scene, faults};
ghost use Rattle.wse_words.specs.Words.{Asked, Init, Run, Show, texts_of, asked_by};
ghost use Rattle.wse_words.specs.Read.{asked_of, HasPlainRoot};
ghost use Rattle.wse_run.specs.Complete.{IsOpenable, IsCalm};
ghost use Rattle.wse_run.specs.End.{ending_of};
ghost use Rattle.wsedit.specs.Status.{code_of, IsStatus, ending_by};
ghost use Rattle.wsedit.specs.Program.{Does, Ends};
ghost use Rattle.wsedit.specs.declared.status.Status.TheVariants.{Ran};

use crate::making::place_and_make;
use crate::running::place_and_run;
use crate::showing::place_and_show;
use crate::status::Status;
use std::alloc::Global;
use wse_disk::Place;
use wse_io::{Sink, Source};
use wse_path::{Limits, Memory};
use wse_run::{RanStore, RunEnd, StoreRun};
use wse_words::{Words, read_words};

/// How a run ended, and the disk that was handed in.
#[derive(Drop)]
pub struct Ended<D: Place> {
    pub status: u8,
    pub disk: D,
}

/// Does what the words ask for.
fn do_words<S: Source, K: Sink, D: Place>(
    alloc: Global,
    words: Words<'_>,
    source: &mut S,
    out: &mut K,
    disk: D,
    limits: Limits,
) -> RanStore<D>
    requires plain { HasPlainRoot words }
    requires within { are_within limits standard ≡ true }
    ensures does { Does limits
        (scene (S.left source.old) (K.pieces out.old) (disk_at D.moment_of D.told disk))
        (scene (S.left source.new) (K.pieces out.new) (disk_at D.moment_of D.told result.disk))
        (asked_of words.entry) (Ran result.end) }
    ensures causes { HasCauses (ending_of result.end)
        (faults (S.faults source.old) (K.faults out.old) (D.faults disk))
        (faults (S.faults source.new) (K.faults out.new) (D.faults result.disk)) }
{
    match words {
        Words::Init(places) => place_and_make(alloc, places, disk, &limits),
        Words::Run {
            places,
            root,
            options,
        } => {
            let run = StoreRun {
                root,
                adopt: options.adopt,
                limits,
                max_input: options.max_input,
            };
            place_and_run(alloc, places, run, source, out, disk)
        }
        Words::Show(places) => place_and_show(alloc, places, disk, limits, out),
    }
}

// How a run ended, before that is told.
struct Outcome<D: Place> {
    status: Status,
    disk: D,
}

/// Reads the words, and does what they ask for.
fn run_words<S: Source, K: Sink, D: Place>(
    alloc: Global,
    words: &[String],
    source: &mut S,
    out: &mut K,
    disk: D,
    limits: Limits,
) -> Outcome<D>
    requires { are_within limits standard ≡ true }
    ensures words { code_of result.status ≡ 2 → asked_by (texts_of words.now) ≡ None }
    ensures untouched { asked_by (texts_of words.now) ≡ None → ((code_of result.status ≡ 2) ⊎ (code_of result.status ≡ 6))
        × (result.disk ≡ disk) × (source.new ≡ source.old) × (out.new ≡ out.old) }
    ensures does { (asked : Asked) → asked_by (texts_of words.now) ≡ Some asked → Does limits
        (scene (S.left source.old) (K.pieces out.old) (disk_at D.moment_of D.told disk))
        (scene (S.left source.new) (K.pieces out.new) (disk_at D.moment_of D.told result.disk))
        asked result.status }
    ensures causes { HasCauses (ending_by (code_of result.status))
        (faults (S.faults source.old) (K.faults out.old) (D.faults disk))
        (faults (S.faults source.new) (K.faults out.new) (D.faults result.disk)) }
{
    match read_words(alloc, words) {
        Ok(None) => Outcome {
            status: Status::Words,
            disk,
        },
        Ok(Some(words)) => {
            let RanStore { disk, end } = do_words(alloc, words, source, out, disk, limits);
            Outcome {
                status: Status::Ran(end),
                disk,
            }
        }
        Err(Memory) => Outcome {
            status: Status::Ran(RunEnd::Memory),
            disk,
        },
    }
}

/// Does what the words ask for, within these limits, and tells of the end at `errs`.
///
/// - Status 0: all was done. For `run` the source was read to its end, every line is answered, and what the disk holds stands
///   for the last state; for `show` all that the store holds is out.
/// - Status 2: the words aren't understood. Nothing is touched.
/// - Status 3, 4, 5: the source, `out` or the disk failed.
/// - Status 6: there was no memory.
/// - Status 7: the disk holds no store. No line is read.
/// - Status 8: the tree passes a limit, or adopting would. No line is read.
/// - Status 9: the source gave one byte past the most that are read as lines.
/// - Status 10: a path isn't as the history says, or a file is in the way of an unsettled record. No line is read.
///
/// At 7, 8 and 10 nothing is adopted, nor at 6 where there was no memory to open the store.
///
/// All of this is this project's own rule.
pub fn run_within<S: Source, K: Sink, E: Sink, D: Place>(
    alloc: Global,
    words: &[String],
    source: &mut S,
    out: &mut K,
    errs: &mut E,
    disk: D,
    limits: Limits,
) -> Ended<D>
    requires { are_within limits standard ≡ true }
    ensures words { result.status ≡ 2 → asked_by (texts_of words.now) ≡ None }
    ensures untouched { asked_by (texts_of words.now) ≡ None → ((result.status ≡ 2) ⊎ (result.status ≡ 6))
        × (result.disk ≡ disk) × (source.new ≡ source.old) × (out.new ≡ out.old) }
    ensures ends { Ends limits
        (scene (S.left source.old) (K.pieces out.old) (disk_at D.moment_of D.told disk))
        (scene (S.left source.new) (K.pieces out.new) (disk_at D.moment_of D.told result.disk))
        (asked_by (texts_of words.now)) result.status
        (E.pieces errs.old) (E.pieces errs.new) (E.faults errs.old) (E.faults errs.new) }
    ensures causes { HasCauses (ending_by result.status)
        (faults (S.faults source.old) (K.faults out.old) (D.faults disk))
        (faults (S.faults source.new) (K.faults out.new) (D.faults result.disk)) }
    ensures statuses { IsStatus result.status }
    ensures complete { (tree store : List ℕ) (root : Parts) (adopt : Bool) (max_input : ℕ)
        → asked_by (texts_of words.now) ≡ Some (Run tree store root adopt max_input)
        → (s : Standing) → D.told disk ≡ Some s → IsOpenable adopt limits s.reading
        → IsCalm max_input (S.left source.old)
        (faults (S.faults source.old) (K.faults out.old) (D.faults disk))
        (faults (S.faults source.new) (K.faults out.new) (D.faults result.disk))
        → (result.status ≡ 0) ⊎ (result.status ≡ 6) }
    ensures makes { (tree store : List ℕ) → asked_by (texts_of words.now) ≡ Some (Init tree store)
        → (s : Standing) → D.told disk ≡ Some s → start_hit limits s.reading.files ≡ None
        → (Rose (D.faults disk) (D.faults result.disk) → ⊥) → (result.status ≡ 0) ⊎ (result.status ≡ 6) }
    ensures shows { (tree store : List ℕ) → asked_by (texts_of words.now) ≡ Some (Show tree store)
        → (s : Standing) → D.told disk ≡ Some s → IsOpenable false limits s.reading
        → (Rose (K.faults out.old) (K.faults out.new) → ⊥) → (Rose (D.faults disk) (D.faults result.disk) → ⊥)
        → (result.status ≡ 0) ⊎ (result.status ≡ 6) }
{
    let Outcome { status, disk } = run_words(alloc, words, source, out, disk, limits);
    // A fault of errs changes no status.
    let _ = status.tell(errs, &disk);
    Ended {
        status: status.code(),
        disk,
    }
}

/// Does what the words ask for, and tells of the end at `errs`: `run_within` with the standard limits.
pub fn run<S: Source, K: Sink, E: Sink, D: Place>(
    alloc: Global,
    words: &[String],
    source: &mut S,
    out: &mut K,
    errs: &mut E,
    disk: D,
) -> Ended<D>
    ensures words { result.status ≡ 2 → asked_by (texts_of words.now) ≡ None }
    ensures untouched { asked_by (texts_of words.now) ≡ None → ((result.status ≡ 2) ⊎ (result.status ≡ 6))
        × (result.disk ≡ disk) × (source.new ≡ source.old) × (out.new ≡ out.old) }
    ensures ends { Ends standard
        (scene (S.left source.old) (K.pieces out.old) (disk_at D.moment_of D.told disk))
        (scene (S.left source.new) (K.pieces out.new) (disk_at D.moment_of D.told result.disk))
        (asked_by (texts_of words.now)) result.status
        (E.pieces errs.old) (E.pieces errs.new) (E.faults errs.old) (E.faults errs.new) }
    ensures causes { HasCauses (ending_by result.status)
        (faults (S.faults source.old) (K.faults out.old) (D.faults disk))
        (faults (S.faults source.new) (K.faults out.new) (D.faults result.disk)) }
    ensures statuses { IsStatus result.status }
    ensures complete { (tree store : List ℕ) (root : Parts) (adopt : Bool) (max_input : ℕ)
        → asked_by (texts_of words.now) ≡ Some (Run tree store root adopt max_input)
        → (s : Standing) → D.told disk ≡ Some s → IsOpenable adopt standard s.reading
        → IsCalm max_input (S.left source.old)
        (faults (S.faults source.old) (K.faults out.old) (D.faults disk))
        (faults (S.faults source.new) (K.faults out.new) (D.faults result.disk))
        → (result.status ≡ 0) ⊎ (result.status ≡ 6) }
    ensures makes { (tree store : List ℕ) → asked_by (texts_of words.now) ≡ Some (Init tree store)
        → (s : Standing) → D.told disk ≡ Some s → start_hit standard s.reading.files ≡ None
        → (Rose (D.faults disk) (D.faults result.disk) → ⊥) → (result.status ≡ 0) ⊎ (result.status ≡ 6) }
    ensures shows { (tree store : List ℕ) → asked_by (texts_of words.now) ≡ Some (Show tree store)
        → (s : Standing) → D.told disk ≡ Some s → IsOpenable false standard s.reading
        → (Rose (K.faults out.old) (K.faults out.new) → ⊥) → (Rose (D.faults disk) (D.faults result.disk) → ⊥)
        → (result.status ≡ 0) ⊎ (result.status ≡ 6) }
{
    run_within(alloc, words, source, out, errs, disk, Limits::standard())
}

#[cfg(test)]
mod tests;
