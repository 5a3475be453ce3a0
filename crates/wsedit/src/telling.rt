// Lines for people, emitted in pieces that take no memory.
ghost use Rattle.std.specs.Prelude.{◌≡◌, ◌++◌, List, OnOk, codes, decimal};
ghost use Rattle.wse_path.specs.Causes.{HasCause};
ghost use Rattle.wse_path.specs.Path.{bytes_of as segments_of, text_of};
ghost use Rattle.wse_io.specs.Stream.{Piece, Adds, IsPrefix, bytes_of};
ghost use Rattle.wse_reply.specs.Limits.{limit_name};

use itoa::Buffer;
use wse_disk::Disk;
use wse_io::{Sink, WriteFailed, emit_all};
use wse_path::{RelPath, Which};

/// The words before the number that passes a limit.
pub fn too_big_words(which: Which) -> &'static str
    ensures { result.now ≡ codes "wsedit: too big: " ++ (limit_name which ++ codes " ") }
{
    match which {
        Which::Files => "wsedit: too big: files ",
        Which::FileBytes => "wsedit: too big: file bytes ",
        Which::TreeBytes => "wsedit: too big: tree bytes ",
        Which::Known => "wsedit: too big: known ",
        Which::Weight => "wsedit: too big: weight ",
        Which::Serial => "wsedit: too big: serial ",
    }
}

/// Emits one text, and another behind it.
pub fn emit_two<E: Sink, D: Disk>(
    errs: &mut E,
    disk: &D,
    first: &str,
    second: &str,
) -> Result<(), WriteFailed>
    ensures told { (told : List Piece) × Adds (E.pieces errs.old) (E.pieces errs.new) told
        × IsPrefix (bytes_of told) (first.now ++ second.now)
        × OnOk result (bytes_of told ≡ first.now ++ second.now) }
    ensures cause { HasCause (E.faults errs.old) (E.faults errs.new) result }
{
    let Ok(()) = emit_all(errs, disk, first.as_bytes()) else {
        return Err(WriteFailed);
    };
    emit_all(errs, disk, second.as_bytes())
}

/// Emits the words before a number, the number, and the words behind it.
pub fn emit_number<E: Sink, D: Disk>(
    errs: &mut E,
    disk: &D,
    before: &str,
    number: u64,
    behind: &str,
) -> Result<(), WriteFailed>
    ensures told { (told : List Piece) × Adds (E.pieces errs.old) (E.pieces errs.new) told
        × IsPrefix (bytes_of told) (before.now ++ (decimal number ++ behind.now))
        × OnOk result (bytes_of told ≡ before.now ++ (decimal number ++ behind.now)) }
    ensures cause { HasCause (E.faults errs.old) (E.faults errs.new) result }
{
    let mut buffer = Buffer::new();
    let Ok(()) = emit_all(errs, disk, before.as_bytes()) else {
        return Err(WriteFailed);
    };
    emit_two(errs, disk, buffer.format(number), behind)
}

/// Emits the segments, joined by `/`.
fn emit_joined<E: Sink, D: Disk>(
    errs: &mut E,
    disk: &D,
    segments: &[String],
) -> Result<(), WriteFailed>
    ensures told { (told : List Piece) × Adds (E.pieces errs.old) (E.pieces errs.new) told
        × IsPrefix (bytes_of told) (text_of (segments_of segments.now))
        × OnOk result (bytes_of told ≡ text_of (segments_of segments.now)) }
    ensures cause { HasCause (E.faults errs.old) (E.faults errs.new) result }
{
    let [first, rest @ ..] = segments else {
        return emit_all(errs, disk, b"");
    };
    let Ok(()) = emit_all(errs, disk, first.as_str().as_bytes()) else {
        return Err(WriteFailed);
    };
    for segment in rest {
        let Ok(()) = emit_two(errs, disk, "/", segment.as_str()) else {
            return Err(WriteFailed);
        };
    }
    Ok(())
}

/// Emits the words before a path, and the path's text.
pub fn emit_path<E: Sink, D: Disk>(
    errs: &mut E,
    disk: &D,
    before: &str,
    path: &RelPath,
) -> Result<(), WriteFailed>
    ensures told { (told : List Piece) × Adds (E.pieces errs.old) (E.pieces errs.new) told
        × IsPrefix (bytes_of told) (before.now ++ (text_of path.now ++ codes "\n"))
        × OnOk result (bytes_of told ≡ before.now ++ (text_of path.now ++ codes "\n")) }
    ensures cause { HasCause (E.faults errs.old) (E.faults errs.new) result }
{
    let Ok(()) = emit_all(errs, disk, before.as_bytes()) else {
        return Err(WriteFailed);
    };
    let Ok(()) = emit_joined(errs, disk, path.segments()) else {
        return Err(WriteFailed);
    };
    emit_all(errs, disk, b"\n")
}
