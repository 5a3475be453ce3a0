// Whether the paths of parts are apart. They stand in path order, so that one pass over neighbours tells it.
ghost use Rattle.std.specs.Prelude.{◌≡◌};
ghost use Rattle.std.specs.Option.{option_copied};
ghost use Rattle.wse_element.specs.Content.{old_content, new_content};
ghost use Rattle.wse_element.specs.Record.{AreParts};
ghost use Rattle.wse_element.specs.Apart.{are_apart, paths_with};
ghost use Rattle.wse_element.specs.Near.{under_last};

use crate::part::Part;
use wse_path::RelPath;

// Whether the path is under the last one, if there is one.
fn is_under_last(last: Option<&RelPath>, path: &RelPath) -> bool
    ensures { result ≡ under_last (option_copied last.entry) path.now }
{
    match last {
        Some(above) => path.is_under(above),
        None => false,
    }
}

/// Whether none of the files that live parts had is under another.
pub(crate) fn had_apart(parts: &[Part]) -> bool
    requires { AreParts parts.now }
    ensures { result ≡ are_apart (paths_with old_content parts.now) }
{
    let mut last: Option<&RelPath> = None;
    for part in parts {
        if part.is_live() && part.had_file() {
            if is_under_last(last, part.path()) {
                return false;
            }
            last = Some(part.path());
        }
    }
    true
}

/// Whether none of the files that live parts left is under another.
pub(crate) fn left_apart(parts: &[Part]) -> bool
    requires { AreParts parts.now }
    ensures { result ≡ are_apart (paths_with new_content parts.now) }
{
    let mut last: Option<&RelPath> = None;
    for part in parts {
        if part.is_live() && part.left_file() {
            if is_under_last(last, part.path()) {
                return false;
            }
            last = Some(part.path());
        }
    }
    true
}
