// The path that a URI names.
ghost use Rattle.std.specs.Prelude.{◌≡◌, ◌⊎◌, ℕ, Ok, Err, Some, None, IfOk, IfErr, OnOk};
ghost use Rattle.wse_path.specs.Path.{bytes_of};
ghost use Rattle.wse_uri.specs.FileUrl.{IsPlainFileUrl};
ghost use Rattle.wse_uri.specs.Segments.{bytes_in};
ghost use Rattle.wse_uri.specs.Reading.{first_escape, path_from, path_below, path_of};

use crate::file_url::parse_file_url;
use crate::refused::UriRefused;
use crate::segments::segments_of;
use std::alloc::Global;
use url::Url;
use wse_path::RelPath;

/// The segments as text.
fn texts(alloc: Global, segments: &[Vec<u8>]) -> Result<Vec<String>, UriRefused>
    ensures text { IfOk result (λ texts. bytes_of texts.items ≡ bytes_in segments.now) }
    ensures all { OnOk result (first_escape (bytes_in segments.now) ≡ None) }
    ensures refused { IfErr result (λ why. (why ≡ UriRefused.Memory)
        ⊎ ((segment : ℕ) × (why ≡ UriRefused.Escape segment) × (first_escape (bytes_in segments.now) ≡ Some segment))) }
{
    let mut texts = Vec::new(alloc);
    for (index, segment) in segments.iter().enumerate() {
        match str::from_utf8(segment) {
            Ok(text) => texts.push(String::from_str(alloc, text)?)?,
            Err(_) => return Err(UriRefused::Escape { segment: index }),
        }
    }
    Ok(texts)
}

/// The path of the segments left below the root.
fn path_from(alloc: Global, left: &[Vec<u8>]) -> Result<RelPath, UriRefused>
    ensures ok { IfOk result (λ path. path_from (bytes_in left.now) ≡ Ok path) }
    ensures refused { IfErr result (λ why. (why ≡ UriRefused.Memory) ⊎ (path_from (bytes_in left.now) ≡ Err why)) }
{
    if left.is_empty() {
        return Err(UriRefused::IsRoot);
    }
    Ok(RelPath::new(texts(alloc, left)?)?)
}

/// The path of the segments behind the root's.
fn path_below(alloc: Global, root: &[Vec<u8>], segments: &[Vec<u8>]) -> Result<RelPath, UriRefused>
    ensures ok { IfOk result (λ path. path_below (bytes_in root.now) (bytes_in segments.now) ≡ Ok path) }
    ensures refused { IfErr result (λ why. (why ≡ UriRefused.Memory)
        ⊎ (path_below (bytes_in root.now) (bytes_in segments.now) ≡ Err why)) }
{
    match segments.strip_prefix(root) {
        Some(left) => path_from(alloc, left),
        None => Err(UriRefused::OutsideRoot),
    }
}

/// The path below the root that the URI names.
///
/// The text is read as the URL Standard reads it. The path of the URL and that of the root are cut at `/`, one empty
/// last segment of each is left out, and each segment is percent-decoded once. What is behind the root's segments is
/// the path.
pub fn path_of(alloc: Global, root: &Url, text: &str) -> Result<RelPath, UriRefused>
    requires root { IsPlainFileUrl root.now }
    ensures ok { IfOk result (λ path. path_of root.now text.now ≡ Ok path) }
    ensures refused { IfErr result (λ why. (why ≡ UriRefused.Memory) ⊎ (path_of root.now text.now ≡ Err why)) }
{
    let url = parse_file_url(alloc, text)?;
    let above = segments_of(alloc, root)?;
    let segments = segments_of(alloc, &url)?;
    path_below(alloc, &above, &segments)
}
