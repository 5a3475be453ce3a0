// What serving needs of that which answers the lines.
ghost use Rattle.std.specs.Prelude.{◌≡◌, ◌⊎◌, ℕ, ◌<◌, ◌≤◌, List, length, IfOk};
ghost use Rattle.wse_stream.specs.Longest.{longest_line};
ghost use Rattle.wse_stream.specs.Machine.{Machine};
ghost use Rattle.wse_stream.specs.Rests.{Rests, Stretches, StaysTold};
ghost use Rattle.wse_server.specs.Stopping.{disk_after, StepCause};

use std::alloc::Global;
use wse_disk::Disk;
use wse_path::Memory;

/// Why a line wasn't done. The disk is handed back.
pub enum Stopped<D: Disk> {
    /// The disk failed: opening it again is the way on.
    Disk(D),
    /// There was no memory.
    Memory(D),
}

/// A disk and the state for which it stands, at rest between lines. It does what a line says, and gives the text of the
/// answer. A machine says what that is, by a setting that stays the same from line to line. This project's own.
pub trait Server<D: Disk> {
    /// The machine's states.
    ghost State: { Type 0 };

    /// What stays the same from line to line.
    ghost Setting: { Type 0 };

    /// What each line is answered and does, and what a disk stands for.
    ghost machine: { Setting → Machine State };

    ghost setting_of: { Self → Setting };

    /// The state for which the disk stands.
    ghost state_of: { Self → State };

    /// The disk that it owns.
    ghost disk_of: { Self → D };

    /// The disk, lent: nothing is pending on it, and what is read stands for the state. Takes no memory.
    fn disk(&self) -> &D
        ensures disk { result.now ≡ disk_of self.now }
        ensures rests { Rests (D.told (disk_of self.now)) ((machine (setting_of self.now)).stands (state_of self.now)) };

    /// Hands the disk back. Takes no memory.
    fn into_disk(self) -> D
        ensures { result ≡ disk_of self };

    /// Does what the line with the number `n` says, and gives the bytes of its answer. A crash at any moment leaves a disk that
    /// stands for the state before the line or for the one after it, where the disk fails too.
    fn line(self, alloc: Global, n: u64, line: &[u8]) -> Result<(Self, Vec<u8>), Stopped<D>>
        requires { length line.now ≤ longest_line }
        ensures same { IfOk result (λ done. setting_of done.0 ≡ setting_of self) }
        ensures state { IfOk result (λ done. state_of done.0
            ≡ (machine (setting_of self)).after (state_of self) line.now) }
        ensures text { IfOk result (λ done. done.1.items
            ≡ (machine (setting_of self)).answer n (state_of self) line.now) }
        ensures images { Stretches (D.told (disk_of self)) (D.told (disk_after disk_of result))
            (λ image. (machine (setting_of self)).stands (state_of self) image
            ⊎ (machine (setting_of self)).stands ((machine (setting_of self)).after (state_of self) line.now) image) }
        ensures told { IfOk result (λ done. StaysTold (D.told (disk_of self)) (D.told (disk_of done.0))) }
        ensures later { D.moment_of (disk_of self) ≤ D.moment_of (disk_after disk_of result) }
        ensures cause { StepCause D.faults disk_of self result };

    /// The bytes of the answer to the line with the number `n` that is too long, of so many bytes.
    fn too_long(&self, alloc: Global, n: u64, bytes: u64) -> Result<Vec<u8>, Memory>
        requires { longest_line < bytes }
        ensures { (line : List ℕ) → length line ≡ bytes → IfOk result (λ text.
            text.items ≡ (machine (setting_of self.now)).answer n (state_of self.now) line) };

    // A line that is too long changes nothing.
    ghost keeps: { (setting : Setting) (s : State) (line : List ℕ) → longest_line < length line
        → (machine setting).after s line ≡ s };
}
