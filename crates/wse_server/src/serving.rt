// Lines in, answers out.
ghost use Rattle.std.specs.Prelude.{◌≡◌, ◌≤◌, ◌∷◌, ◌^◌, ℕ, [], List, IfOk, OnOk};
ghost use Rattle.wse_io.specs.Reader.{Tells, IsFit};
ghost use Rattle.wse_io.specs.Stream.{Piece, Adds, bytes_of};
ghost use Rattle.wse_stream.specs.Longest.{longest_line};
ghost use Rattle.wse_stream.specs.Machine.{transcript};
ghost use Rattle.wse_stream.specs.Scene.{disk_at, scene, faults};
ghost use Rattle.wse_stream.specs.Rests.{Rests, StaysTold};
ghost use Rattle.wse_stream.specs.Run.{Ran};
ghost use Rattle.wse_stream.specs.Runs.{Runs, HasCauses};
ghost use Rattle.wse_server.specs.Stopping.{stopped_disk};
ghost use Rattle.wse_server.specs.Serving.{fault_disk, fault_of, one_disk, OneCause, ending_of, end_of_lines, end_of_one};

use crate::answering::answer_line;
use crate::server::{Server, Stopped};
use std::alloc::Global;
use wse_disk::Disk;
use wse_io::{Line, LineFault, Lines, Sink, Source, WriteFailed, emit_all};

/// The most bytes of a line that is kept. One of more is answered as too long. This project's own rule.
const LONGEST_LINE: usize = 33_554_432;

/// Why a line wasn't answered. The disk is handed back.
pub enum ServeFault<D: Disk> {
    /// The sink failed.
    Write(D),
    /// The disk failed.
    Disk(D),
    /// There was no memory.
    Memory(D),
}

/// How serving ended.
#[derive(Clone, Copy, PartialEq, Eq)]
pub enum ServeEnd {
    /// The source was read to its end, and every line was answered.
    Done,
    /// The source failed.
    Read,
    /// The sink failed.
    Write,
    /// The disk failed.
    Disk,
    /// There was no memory.
    Memory,
    /// The source gave one byte past the limit.
    InputLimit { taken: u64 },
}

/// The disk after serving, and how serving ended.
pub struct Served<D: Disk> {
    pub disk: D,
    pub end: ServeEnd,
}

fn into_fault<D: Disk>(stopped: Stopped<D>) -> ServeFault<D>
    ensures fault { result ≡ fault_of stopped }
    ensures disk { fault_disk result ≡ stopped_disk stopped }
{
    match stopped {
        Stopped::Disk(disk) => ServeFault::Disk(disk),
        Stopped::Memory(disk) => ServeFault::Memory(disk),
    }
}

/// Does what a line says, and emits its answer, the line being numbered `n`. Of a line that is too long only the number of its
/// bytes is told, and what comes of it is the same for all lines of so many bytes.
///
/// What is emitted is a front of the machine's answer, and after Ok the whole. A crash at any moment of the call leaves a
/// disk that stands for the state before the line or for the one after it, and from the first piece of the answer on for
/// the one after it.
pub fn serve_one<D: Disk, R: Server<D>, K: Sink>(
    alloc: Global,
    server: R,
    n: u64,
    line: Line,
    out: &mut K,
) -> Result<R, ServeFault<D>>
    requires { IsFit longest_line line }
    ensures run { (bytes : List ℕ) → Tells line bytes
        → (added : List Piece) × Adds (K.pieces out.old) (K.pieces out.new) added
        × Ran (R.machine (R.setting_of server)) (disk_at D.moment_of D.told (R.disk_of server))
        (disk_at D.moment_of D.told (one_disk R.disk_of result)) n (R.state_of server) (bytes ∷ []) added
        × OnOk result (bytes_of added
        ≡ transcript (R.machine (R.setting_of server)) n (R.state_of server) (bytes ∷ [])) }
    ensures same { IfOk result (λ next. R.setting_of next ≡ R.setting_of server) }
    ensures next { (bytes : List ℕ) → Tells line bytes → IfOk result (λ next. R.state_of next
        ≡ (R.machine (R.setting_of server)).after (R.state_of server) bytes) }
    ensures told { IfOk result (λ next. StaysTold (D.told (R.disk_of server)) (D.told (R.disk_of next))) }
    ensures rests { IfOk result (λ next. Rests (D.told (R.disk_of next))
        ((R.machine (R.setting_of next)).stands (R.state_of next))) }
    ensures cause { OneCause D.faults R.disk_of server (K.faults out.old) (K.faults out.new) result }
{
    let (server, text) = match answer_line(alloc, server, n, line) {
        Ok(done) => done,
        Err(stopped) => return Err(into_fault(stopped)),
    };
    match emit_all(out, server.disk(), text.as_slice()) {
        Ok(()) => Ok(server),
        Err(WriteFailed) => Err(ServeFault::Write(server.into_disk())),
    }
}

impl<D: Disk> ServeFault<D> {
    fn into_served(self) -> Served<D>
        ensures end { result.end ≡ end_of_one self }
        ensures disk { result.disk ≡ fault_disk self }
    {
        match self {
            ServeFault::Write(disk) => Served {
                disk,
                end: ServeEnd::Write,
            },
            ServeFault::Disk(disk) => Served {
                disk,
                end: ServeEnd::Disk,
            },
            ServeFault::Memory(disk) => Served {
                disk,
                end: ServeEnd::Memory,
            },
        }
    }
}

fn end_of(fault: LineFault) -> ServeEnd
    ensures { result ≡ end_of_lines fault }
{
    match fault {
        LineFault::Read => ServeEnd::Read,
        LineFault::InputLimit { taken } => ServeEnd::InputLimit { taken },
        LineFault::Memory => ServeEnd::Memory,
    }
}

/// Answers the lines of the source, to its end or to the first fault. Of its bytes at most `max_input` are read as lines.
pub fn serve<D: Disk, R: Server<D>, S: Source, K: Sink>(
    alloc: Global,
    server: R,
    source: &mut S,
    out: &mut K,
    max_input: u64,
) -> Served<D>
    requires some { 1 ≤ max_input }
    requires countable { max_input ≤ 2 ^ 62 }
    ensures run { Runs (R.machine (R.setting_of server)) (R.state_of server) max_input
        (scene (S.left source.old) (K.pieces out.old) (disk_at D.moment_of D.told (R.disk_of server)))
        (scene (S.left source.new) (K.pieces out.new) (disk_at D.moment_of D.told result.disk))
        (ending_of result.end) }
    ensures causes { HasCauses (ending_of result.end)
        (faults (S.faults source.old) (K.faults out.old) (D.faults (R.disk_of server)))
        (faults (S.faults source.new) (K.faults out.new) (D.faults result.disk)) }
{
    let mut lines = Lines::new(alloc, LONGEST_LINE, max_input);
    let _ = server.disk();
    let mut server = server;
    let mut n = 1;
    loop {
        let line = match lines.next(source) {
            Ok(line) => line,
            Err(fault) => {
                return Served {
                    disk: server.into_disk(),
                    end: end_of(fault),
                };
            }
        };
        let line = match line {
            Line::End => {
                return Served {
                    disk: server.into_disk(),
                    end: ServeEnd::Done,
                };
            }
            line => line,
        };
        server = match serve_one(alloc, server, n, line, out) {
            Ok(server) => server,
            Err(fault) => return fault.into_served(),
        };
        n += 1;
    }
}
