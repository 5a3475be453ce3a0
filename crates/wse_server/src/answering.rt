// What a line is answered, also one that is too long.
ghost use Rattle.std.specs.Prelude.{◌≡◌, ◌⊎◌, ◌<◌, ◌≤◌, ℕ, List, length, false, IfOk};
ghost use Rattle.wse_io.specs.Reader.{Tells, IsFit};
ghost use Rattle.wse_stream.specs.Longest.{longest_line};
ghost use Rattle.wse_stream.specs.Rests.{Rests, Stretches, StaysTold};
ghost use Rattle.wse_server.specs.Stopping.{disk_after, is_disk_stop, StepCause};

use crate::server::{Server, Stopped};
use std::alloc::Global;
use wse_disk::Disk;
use wse_io::Line;
use wse_path::Memory;

/// The answer to the line with the number `n` that is too long, of so many bytes. It leaves the server as it is.
fn answer_too_long<D: Disk, R: Server<D>>(
    alloc: Global,
    server: R,
    n: u64,
    bytes: u64,
) -> Result<(R, Vec<u8>), Stopped<D>>
    requires { longest_line < bytes }
    ensures server { IfOk result (λ done. done.0 ≡ server) }
    ensures text { (line : List ℕ) → length line ≡ bytes → IfOk result (λ done. done.1.items
        ≡ (R.machine (R.setting_of server)).answer n (R.state_of server) line) }
    ensures disk { disk_after R.disk_of result ≡ R.disk_of server }
    ensures rests { Rests (D.told (R.disk_of server)) ((R.machine (R.setting_of server)).stands (R.state_of server)) }
    ensures cause { is_disk_stop result ≡ false }
{
    let _ = server.disk();
    match server.too_long(alloc, n, bytes) {
        Ok(text) => Ok((server, text)),
        Err(Memory) => Err(Stopped::Memory(server.into_disk())),
    }
}

/// Does what the line with the number `n` says, and gives the bytes of its answer. What comes of a line that is too long is the
/// same for all lines of so many bytes.
pub fn answer_line<D: Disk, R: Server<D>>(
    alloc: Global,
    server: R,
    n: u64,
    line: Line,
) -> Result<(R, Vec<u8>), Stopped<D>>
    requires { IsFit longest_line line }
    ensures same { IfOk result (λ done. R.setting_of done.0 ≡ R.setting_of server) }
    ensures state { (bytes : List ℕ) → Tells line bytes → IfOk result (λ done. R.state_of done.0
        ≡ (R.machine (R.setting_of server)).after (R.state_of server) bytes) }
    ensures text { (bytes : List ℕ) → Tells line bytes → IfOk result (λ done. done.1.items
        ≡ (R.machine (R.setting_of server)).answer n (R.state_of server) bytes) }
    ensures images { (bytes : List ℕ) → Tells line bytes
        → Stretches (D.told (R.disk_of server)) (D.told (disk_after R.disk_of result))
        (λ image. (R.machine (R.setting_of server)).stands (R.state_of server) image
        ⊎ (R.machine (R.setting_of server)).stands ((R.machine (R.setting_of server)).after (R.state_of server) bytes) image) }
    ensures told { IfOk result (λ done. StaysTold (D.told (R.disk_of server)) (D.told (R.disk_of done.0))) }
    ensures later { D.moment_of (R.disk_of server) ≤ D.moment_of (disk_after R.disk_of result) }
    ensures cause { StepCause D.faults R.disk_of server result }
{
    match line {
        Line::Text(text) => server.line(alloc, n, text.as_slice()),
        Line::TooLong { bytes } => answer_too_long(alloc, server, n, bytes),
        Line::End => unreachable!(),
    }
}
