// What bytes are written to.
ghost use Rattle.std.specs.Prelude.{◌≡◌, ◌<◌, ◌≤◌, ℕ, List, Option, None, length, IfOk, OnOk};
ghost use Rattle.wse_path.specs.Causes.{HasCause};
ghost use Rattle.wse_io.specs.Stream.{Piece, Adds, piece_by, bytes_of, IsPrefix, AllAt};

use wse_disk::Disk;

/// The sink failed.
#[derive(Debug, Clone, Copy, PartialEq, Eq)]
pub struct WriteFailed;

/// A sink of bytes, which notes with each piece the moment of the disk that it is shown. It may tell the pieces, as one in
/// memory does. Each sink counts its faults: an emit fails only where the count rose in it.
pub trait Sink {
    /// The pieces that came so far, where they are told.
    ghost pieces: { Self → Option (List Piece) } = { λ _. None };

    /// How often it has failed.
    ghost faults: { Self → ℕ };

    /// Emits the first of the bytes as one piece, and answers how many: one at least, where there are any. An emit that
    /// fails adds no piece.
    fn emit<D: Disk>(&mut self, disk: &D, bytes: &[u8]) -> Result<usize, WriteFailed>
        ensures count { IfOk result (λ n. n ≤ length bytes.now) }
        ensures some { IfOk result (λ n. 0 < length bytes.now → 0 < n) }
        ensures added { Adds (pieces self.old) (pieces self.new) (piece_by result bytes.now (D.moment_of disk.now)) }
        ensures cause { HasCause (faults self.old) (faults self.new) result };
}

/// Emits all the bytes, in one piece or several. Where it fails, a front of them was emitted.
pub fn emit_all<K: Sink, D: Disk>(sink: &mut K, disk: &D, bytes: &[u8]) -> Result<(), WriteFailed>
    ensures added { (added : List Piece) × Adds (K.pieces sink.old) (K.pieces sink.new) added
        × AllAt (D.moment_of disk.now) added
        × IsPrefix (bytes_of added) bytes.now
        × OnOk result (bytes_of added ≡ bytes.now) }
    ensures cause { HasCause (K.faults sink.old) (K.faults sink.new) result }
{
    let mut at = 0;
    while at < bytes.len() {
        match sink.emit(disk, &bytes[at..]) {
            Ok(count) => at += count,
            Err(WriteFailed) => return Err(WriteFailed),
        }
    }
    Ok(())
}
