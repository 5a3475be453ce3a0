// What a disk does, call by call.
ghost use Rattle.std.specs.Prelude.{◌≡◌, ℕ, ◌+◌, ◌<◌, ◌≤◌, ◌^◌, length, Option, None, IfOk, OnOk};
ghost use Rattle.wse_path.specs.Causes.{HasCause};
ghost use Rattle.wse_disk.specs.Causes.{HasReadCause};
ghost use Rattle.wse_disk.specs.Reading.Write.{Stores, Erases, Patches};
ghost use Rattle.wse_disk.specs.Standing.{Standing};
ghost use Rattle.wse_disk.specs.Told.{ReadsAnImage, CountsMoments};
ghost use Rattle.wse_disk.specs.Calls.{ReadsNames, ReadsSize, ReadsFile, ReadsLength, ReadsPart, HasRoomFor, HasPart, IsPatchable, TellsWrite, TellsSync};

use crate::area::Area;
use std::alloc::{AllocError, Global};
use wse_path::{Memory, RelPath};

/// The disk failed.
#[derive(Debug, Clone, Copy, PartialEq, Eq)]
pub struct Failed;

/// Why a call that takes memory gave no answer.
#[derive(Debug, Clone, Copy, PartialEq, Eq)]
pub enum ReadErr {
    /// The disk failed.
    Failed,
    /// There was no memory for what was read.
    Memory,
}

impl From<Failed> for ReadErr {
    ghost use Rattle.std.specs.Prelude.{◌≡◌};
    ghost use Rattle.wse_disk.specs.declared.disk.ReadErr.TheVariants.{Failed};

    ghost from_gives = { λ _ e. e ≡ Failed };

    fn from(_: Failed) -> ReadErr {
        ReadErr::Failed
    }
}

impl From<AllocError> for ReadErr {
    ghost use Rattle.std.specs.Prelude.{◌≡◌};
    ghost use Rattle.wse_disk.specs.declared.disk.ReadErr.TheVariants.{Memory};

    ghost from_gives = { λ _ e. e ≡ Memory };

    fn from(_: AllocError) -> ReadErr {
        ReadErr::Memory
    }
}

impl From<Memory> for ReadErr {
    ghost use Rattle.std.specs.Prelude.{◌≡◌};
    ghost use Rattle.wse_disk.specs.declared.disk.ReadErr.TheVariants.{Memory};

    ghost from_gives = { λ _ e. e ≡ Memory };

    fn from(_: Memory) -> ReadErr {
        ReadErr::Memory
    }
}

/// A folder tree on a disk, and beside it three areas of bytes. A disk may tell what it holds and what a crash may leave of
/// it, as one in memory does. A real folder tells nothing, and the clauses on what is told ask nothing of it. Each disk
/// counts its faults: a call fails only where the count rose in it.
pub trait Disk {
    /// What the disk tells.
    ghost told: { Self → Option Standing } = { λ _. None };

    /// The moment, a number that never falls.
    ghost moment_of: { Self → ℕ };

    /// How often the disk has failed.
    ghost faults: { Self → ℕ };

    /// The present moment.
    fn moment(&self) -> u64
        ensures { result ≡ moment_of self.now };

    /// Puts the paths of all files, in path order, in the place of what `into` holds.
    fn names(&mut self, alloc: Global, into: &mut Vec<RelPath>) -> Result<(), ReadErr>
        ensures reads { OnOk result (ReadsNames (told self.old) into.new.items) }
        ensures same { told self.new ≡ told self.old }
        ensures later { moment_of self.old ≤ moment_of self.new }
        ensures cause { HasReadCause (faults self.old) (faults self.new) result };

    /// How many bytes the file has, or None where there is no file.
    fn size(&mut self, path: &RelPath) -> Result<Option<u64>, Failed>
        ensures reads { IfOk result (ReadsSize (told self.old) path.now) }
        ensures same { told self.new ≡ told self.old }
        ensures later { moment_of self.old ≤ moment_of self.new }
        ensures cause { HasCause (faults self.old) (faults self.new) result };

    /// Puts the file's bytes in the place of what `into` holds, and answers whether there is such a file.
    fn load(&mut self, alloc: Global, path: &RelPath, into: &mut Vec<u8>) -> Result<bool, ReadErr>
        ensures reads { IfOk result (λ found. ReadsFile (told self.old) path.now found into.new.items) }
        ensures same { told self.new ≡ told self.old }
        ensures later { moment_of self.old ≤ moment_of self.new }
        ensures cause { HasReadCause (faults self.old) (faults self.new) result };

    /// Makes the bytes the content of the path.
    fn store(&mut self, path: &RelPath, bytes: &[u8]) -> Result<(), Failed>
        requires { HasRoomFor (told self.old) path.now }
        ensures writes { TellsWrite (Stores path.now bytes.now) (told self.old) (told self.new) result }
        ensures later { moment_of self.old ≤ moment_of self.new }
        ensures cause { HasCause (faults self.old) (faults self.new) result };

    /// Takes the path away.
    fn erase(&mut self, path: &RelPath) -> Result<(), Failed>
        requires { HasRoomFor (told self.old) path.now }
        ensures writes { TellsWrite (Erases path.now) (told self.old) (told self.new) result }
        ensures later { moment_of self.old ≤ moment_of self.new }
        ensures cause { HasCause (faults self.old) (faults self.new) result };

    /// How many bytes the area has, which is below 2^63.
    fn area_len(&mut self, area: Area) -> Result<u64, Failed>
        ensures reads { IfOk result (ReadsLength (told self.old) area) }
        ensures bounded { IfOk result (λ count. count < 2 ^ 63) }
        ensures same { told self.new ≡ told self.old }
        ensures later { moment_of self.old ≤ moment_of self.new }
        ensures cause { HasCause (faults self.old) (faults self.new) result };

    /// Fills `into` with the area's bytes from the place `at` on.
    fn area_read(&mut self, area: Area, at: u64, into: &mut [u8]) -> Result<(), Failed>
        requires { HasPart (told self.old) area at (length into.old) }
        ensures reads { OnOk result (ReadsPart (told self.old) area at (length into.old) into.new) }
        ensures same { told self.new ≡ told self.old }
        ensures later { moment_of self.old ≤ moment_of self.new }
        ensures cause { HasCause (faults self.old) (faults self.new) result };

    /// Writes the bytes into the area from the place `at` on, over what is there and past its end. Each place that is
    /// written is below 2^63.
    fn area_write(&mut self, area: Area, at: u64, bytes: &[u8]) -> Result<(), Failed>
        requires { IsPatchable (told self.old) area at bytes.now }
        ensures writes { TellsWrite (Patches area at bytes.now) (told self.old) (told self.new) result }
        ensures bounded { OnOk result (at + length bytes.now ≤ 2 ^ 63) }
        ensures later { moment_of self.old ≤ moment_of self.new }
        ensures cause { HasCause (faults self.old) (faults self.new) result };

    /// Makes all writes so far last: after it a crash leaves what is read.
    fn sync(&mut self) -> Result<(), Failed>
        ensures syncs { TellsSync (told self.old) (told self.new) result }
        ensures later { moment_of self.old ≤ moment_of self.new }
        ensures cause { HasCause (faults self.old) (faults self.new) result };

    /// What is read is one of the images.
    ghost reads_an_image: { (d : Self) → ReadsAnImage (told d) };

    /// The moments that it tells are counted.
    ghost counts_moments: { (d : Self) → CountsMoments (told d) (moment_of d) };
}

/// A disk that is told where its folders lie.
pub trait Place: Disk {
    /// Works from now on over the folders TREE and STORE.
    fn place(&mut self, tree: &str, store: &str) -> Result<(), Failed>
        ensures same { Self.told self.new ≡ Self.told self.old }
        ensures later { Self.moment_of self.old ≤ Self.moment_of self.new }
        ensures cause { HasCause (Self.faults self.old) (Self.faults self.new) result };
}
