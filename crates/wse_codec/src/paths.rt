// Reading paths.
ghost use Rattle.std.specs.Prelude.{◌≡◌, ◌&&◌, None, IfOk, option_map};
ghost use Rattle.std.specs.List.{list_all};
ghost use Rattle.std.specs.Option.{option_copied};
ghost use Rattle.std.specs.Str.{is_utf8};
ghost use Rattle.wse_path.specs.Path.{bytes_of};
ghost use Rattle.wse_codec.specs.Pieces.{row_at};
ghost use Rattle.wse_codec.specs.Reading.{segment_at, is_path, is_behind, path_behind};
ghost use Rattle.wse_codec.specs.Gives.{Gives, bytes_in, texts_in, path_in};

use crate::fields::{take_byte, take_segment};
use crate::unread::Unread;
use std::alloc::Global;
use wse_path::{Memory, RelPath};

/// That many segments.
fn take_segments(alloc: Global, count: u8, bytes: &[u8]) -> Result<(Vec<Vec<u8>>, &[u8]), Unread>
    ensures { Gives (λ x. (bytes_in x.0.items, x.1.now)) result (row_at (λ last. segment_at) None count bytes.now) }
{
    let mut segments = Vec::new(alloc);
    let mut rest = bytes;
    for _ in 0..count {
        let (segment, after) = take_segment(rest)?;
        segments.push(Vec::from_slice(alloc, segment)?)?;
        rest = after;
    }
    Ok((segments, rest))
}

/// The segments as texts, where each of them is one.
fn texts_of(alloc: Global, segments: &[Vec<u8>]) -> Result<Option<Vec<String>>, Memory>
    ensures { IfOk result (λ texts. texts_in (bytes_in segments.now) ≡ option_map (λ v. bytes_of v.items) texts) }
{
    let mut texts = Vec::new(alloc);
    for segment in segments {
        match str::from_utf8(segment) {
            Ok(text) => texts.push(String::from_str(alloc, text)?)?,
            Err(_) => return Ok(None),
        }
    }
    Ok(Some(texts))
}

/// Whether the path comes behind the other one, where there is one.
#[tactic(auto, unfolding(crate::specs::Reading::is_behind))]
fn is_behind(before: Option<&RelPath>, path: &RelPath) -> bool
    ensures { result ≡ is_behind (option_copied before.entry) path.now }
{
    match before {
        Some(other) => other.cmp(path).is_lt(),
        None => true,
    }
}

/// The path of the segments, where they are one of texts.
#[tactic(auto, unfolding(crate::specs::Reading::is_path))]
fn path_of(alloc: Global, segments: &[Vec<u8>]) -> Result<Option<RelPath>, Memory>
    ensures { IfOk result (λ path. path ≡ path_in (bytes_in segments.now)) }
{
    match texts_of(alloc, segments)? {
        Some(texts) => Ok(RelPath::new(texts).ok()),
        None => Ok(None),
    }
}

/// A path that comes behind the other one, where there is one.
#[tactic(auto, unfolding(crate::specs::Reading::path_behind))]
pub(crate) fn take_path<'a>(
    alloc: Global,
    before: Option<&RelPath>,
    bytes: &'a [u8],
) -> Result<(RelPath, &'a [u8]), Unread>
    ensures { Gives (λ x. (x.0, x.1.now)) result (path_behind (option_copied before.entry) bytes.now) }
{
    let (count, rest) = take_byte(bytes)?;
    let (segments, rest) = take_segments(alloc, count, rest)?;
    let refused = Unread::Wrong { left: bytes.len() };
    match path_of(alloc, &segments)? {
        Some(path) if is_behind(before, &path) => Ok((path, rest)),
        _ => Err(refused),
    }
}
