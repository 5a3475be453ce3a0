// Writing the fields that all else is made of.
ghost use Rattle.std.specs.Prelude.{◌≡◌, ◌<◌, ◌^◌, ◌++◌, [], ◌∷◌, length, slice_index_or, OnOk};
ghost use Rattle.std.specs.Int.{w16, w32, w64, to_be_bytes};
ghost use Rattle.wse_path.specs.Path.{IsPath};
ghost use Rattle.wse_codec.specs.Allowed.{IsAllowedPath, IsAllowedLabel, IsAllowedContent};
ghost use Rattle.wse_codec.specs.Spelling.{segment_bytes, path_bytes, run_bytes, content_bytes, label_bytes, flag_byte};

use byteorder::{BigEndian, ByteOrder};
use wse_path::{Bytes, Label, Memory, RelPath};

/// Writes a number of two bytes.
fn put_u16(out: &mut Vec<u8>, number: u16) -> Result<(), Memory>
    ensures { OnOk result (out.new.items ≡ out.old.items ++ to_be_bytes w16 number) }
{
    let mut field = [0u8; 2];
    BigEndian::write_u16(&mut field, number);
    out.extend_from_slice(&field)?;
    Ok(())
}

/// Writes a number of four bytes.
pub(crate) fn put_u32(out: &mut Vec<u8>, number: u32) -> Result<(), Memory>
    ensures { OnOk result (out.new.items ≡ out.old.items ++ to_be_bytes w32 number) }
{
    let mut field = [0u8; 4];
    BigEndian::write_u32(&mut field, number);
    out.extend_from_slice(&field)?;
    Ok(())
}

/// Writes a number of eight bytes.
pub(crate) fn put_u64(out: &mut Vec<u8>, number: u64) -> Result<(), Memory>
    ensures { OnOk result (out.new.items ≡ out.old.items ++ to_be_bytes w64 number) }
{
    let mut field = [0u8; 8];
    BigEndian::write_u64(&mut field, number);
    out.extend_from_slice(&field)?;
    Ok(())
}

/// Writes two numbers of eight bytes.
pub(crate) fn put_pair(out: &mut Vec<u8>, first: u64, second: u64) -> Result<(), Memory>
    ensures spelled { OnOk result (out.new.items ≡ out.old.items ++ (to_be_bytes w64 first ++ to_be_bytes w64 second)) }
    ensures fits { (first < 2 ^ 64) × (second < 2 ^ 64) }
{
    put_u64(out, first)?;
    put_u64(out, second)
}

/// The byte that stands for a flag.
#[tactic(auto, unfolding(crate::specs::Spelling::flag_byte))]
pub(crate) fn byte_of_flag(flag: bool) -> u8
    ensures { result ≡ flag_byte flag }
{
    if flag { 1 } else { 0 }
}

/// Writes bytes with their length in four bytes.
#[tactic(auto, unfolding(crate::specs::Spelling::run_bytes))]
pub(crate) fn put_run(out: &mut Vec<u8>, bytes: &[u8]) -> Result<(), Memory>
    requires { length bytes.now < 2 ^ 32 }
    ensures { OnOk result (out.new.items ≡ out.old.items ++ run_bytes bytes.now) }
{
    put_u32(out, bytes.len() as u32)?;
    out.extend_from_slice(bytes)?;
    Ok(())
}

/// Writes content that may be absent.
#[tactic(auto, unfolding(crate::specs::Spelling::content_bytes))]
pub(crate) fn put_content(out: &mut Vec<u8>, content: &Option<Bytes>) -> Result<(), Memory>
    requires { IsAllowedContent content.now }
    ensures spelled { OnOk result (out.new.items ≡ out.old.items ++ content_bytes content.now) }
    ensures allowed { OnOk result (IsAllowedContent content.now) }
{
    match content {
        None => {
            out.push(0)?;
            Ok(())
        }
        Some(bytes) => {
            out.push(1)?;
            put_run(out, bytes.as_slice())
        }
    }
}

/// Writes a label with its length in two bytes.
#[tactic(auto, unfolding(crate::specs::Spelling::label_bytes))]
pub(crate) fn put_label(out: &mut Vec<u8>, label: &Label) -> Result<(), Memory>
    ensures spelled { OnOk result (out.new.items ≡ out.old.items ++ label_bytes label.now) }
    ensures allowed { OnOk result (IsAllowedLabel label.now) }
{
    let len = label.len();
    put_u16(out, len as u16)?;
    out.extend_from_slice(label.as_str().as_bytes())?;
    Ok(())
}

/// Writes a segment with its length in a byte.
#[tactic(auto, unfolding(crate::specs::Spelling::segment_bytes))]
fn put_segment(out: &mut Vec<u8>, segment: &str) -> Result<(), Memory>
    requires { length segment.now < 2 ^ 8 }
    ensures { OnOk result (out.new.items ≡ out.old.items ++ segment_bytes segment.now) }
{
    out.push(segment.len() as u8)?;
    out.extend_from_slice(segment.as_bytes())?;
    Ok(())
}

/// Writes the path's segment at that place.
fn put_segment_at(out: &mut Vec<u8>, path: &RelPath, at: usize) -> Result<(), Memory>
    requires path { IsPath path.now }
    requires within { at < length path.now }
    ensures { OnOk result (out.new.items ≡ out.old.items ++ segment_bytes (slice_index_or path.now at [])) }
{
    match path.segment(at) {
        Some(segment) => put_segment(out, segment),
        None => Ok(()),
    }
}

/// Writes a path's segments behind their number.
pub(crate) fn put_path(out: &mut Vec<u8>, path: &RelPath) -> Result<(), Memory>
    ensures spelled { OnOk result (out.new.items ≡ out.old.items ++ path_bytes path.now) }
    ensures allowed { OnOk result (IsAllowedPath path.now) }
{
    let depth = path.depth();
    out.push(depth as u8)?;
    for at in 0..depth {
        put_segment_at(out, path, at)?;
    }
    Ok(())
}
