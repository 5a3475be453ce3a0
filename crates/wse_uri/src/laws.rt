// What holds of the definitions, and what refusals say.
ghost use Rattle.std.specs.Prelude.{◌≡◌, Some};
ghost use Rattle.wse_uri.specs.Words.{uri_text, root_text};
ghost use Rattle.wse_uri.specs.Writing.{UriNamesItsPath};

use crate::refused::{RootRefused, UriRefused};
use std::fmt::Display;

/// `path_of` of the URI that `uri_of` writes for a path gives the path, where the URL Standard reads the URI as a file
/// URL without host, query and fragment whose path is the root's without one final `/`, and then the same segments.
/// The root's parts are valid, as each `Url` tells, and the path's segments are UTF-8, as `RelPath::depth` tells.
pub fn uri_names_its_path()
    ensures { UriNamesItsPath }
{}

/// Why a URI names no path, and why a text is no root, is shown in words of this project's own.
pub fn refusals_have_words(uri: UriRefused, root: RootRefused)
    ensures uri { ⟦<UriRefused as Display>⟧.output uri ≡ Some (uri_text uri) }
    ensures root { ⟦<RootRefused as Display>⟧.output root ≡ Some (root_text root) }
{}
