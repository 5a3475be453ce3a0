// The segments of a URL's path.
ghost use Rattle.std.specs.Prelude.{◌≡◌, map, IfOk};
ghost use Rattle.percent_encoding.specs.Percent.{percent_decode};
ghost use Rattle.wse_uri.specs.Segments.{bytes_in, parts_of, without_empty_last, segments_of};

use percent_encoding::percent_decode;
use std::alloc::{AllocError, Global};
use url::Url;

/// The parts between the slashes.
fn parts<'a>(alloc: Global, path: &'a str) -> Result<Vec<&'a str>, AllocError>
    ensures { IfOk result (λ parts. map (λ part. part.now) parts.items ≡ parts_of path.now) }
{
    path.split('/').collect(alloc)
}

/// The list but for its last part, if that is empty.
fn without_empty_last<'a, 's>(parts: &'s [&'a str]) -> &'s [&'a str]
    ensures { map (λ part. part.now) result.now ≡ without_empty_last (map (λ part. part.now) parts.now) }
{
    match parts {
        [front @ .., ""] => front,
        _ => parts,
    }
}

fn decode(alloc: Global, part: &str) -> Result<Vec<u8>, AllocError>
    ensures { IfOk result (λ segment. segment.items ≡ percent_decode part.now) }
{
    let mut segment = Vec::new(alloc);
    percent_decode(part.as_bytes()).append_to(&mut segment)?;
    Ok(segment)
}

fn decode_all(alloc: Global, parts: &[&str]) -> Result<Vec<Vec<u8>>, AllocError>
    ensures { IfOk result (λ segments. bytes_in segments.items ≡ map percent_decode (map (λ part. part.now) parts.now)) }
{
    let mut segments = Vec::new(alloc);
    for part in parts {
        segments.push(decode(alloc, part)?)?;
    }
    Ok(segments)
}

/// The segments of the URL's path, percent-decoded.
pub fn segments_of(alloc: Global, url: &Url) -> Result<Vec<Vec<u8>>, AllocError>
    ensures { IfOk result (λ segments. bytes_in segments.items ≡ segments_of url.now.path) }
{
    let parts = parts(alloc, url.path())?;
    decode_all(alloc, without_empty_last(&parts))
}
