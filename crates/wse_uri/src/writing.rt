// The URI of a path.
ghost use Rattle.std.specs.Prelude.{◌≡◌, ◌++◌, string_bytes, IfOk, OnOk};
ghost use Rattle.std.specs.Io.BufRead.{strip_last};
ghost use Rattle.wse_uri.specs.FileUrl.{IsPlainFileUrl};
ghost use Rattle.wse_uri.specs.Writing.{escaped, uri_of};

use percent_encoding::{AsciiSet, NON_ALPHANUMERIC, ascii_set, utf8_percent_encode};
use std::alloc::{AllocError, Global};
use url::Url;
use wse_path::{Memory, RelPath, Text};

/// The ASCII characters that are escaped: all but the unreserved ones of RFC 3986, section 2.3.
const ESCAPED: AsciiSet = ascii_set!(
    NON_ALPHANUMERIC
        .remove(b'-')
        .remove(b'.')
        .remove(b'_')
        .remove(b'~')
);

fn without_final_slash(text: &str) -> &str
    ensures { result.now ≡ strip_last 47 text.now }
{
    text.strip_suffix('/').unwrap_or(text)
}

/// Appends the segment, escaped.
fn push_escaped(uri: &mut String, segment: &str) -> Result<(), AllocError>
    ensures { OnOk result (string_bytes uri.new ≡ string_bytes uri.old ++ escaped segment.now) }
{
    utf8_percent_encode(segment, ESCAPED).append_to(uri)
}

/// The URI that names the path below the root: the root's text without one final `/`, and then each segment behind a
/// `/`. All but ASCII letters, digits, `-`, `.`, `_` and `~` is escaped, as `%` and two upper-case hexadecimal digits.
pub fn uri_of(alloc: Global, root: &Url, path: &RelPath) -> Result<Text, Memory>
    requires root { IsPlainFileUrl root.now }
    ensures { IfOk result (λ uri. uri ≡ uri_of root.now path.now) }
{
    let mut uri = String::from_str(alloc, without_final_slash(root.as_str()))?;
    for index in 0..path.depth() {
        uri.push('/')?;
        push_escaped(&mut uri, path.segment(index).unwrap())?;
    }
    Ok(Text::new(uri))
}
