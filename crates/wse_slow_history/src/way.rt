// Files in the way of contents that are to come.
ghost use Rattle.std.specs.Prelude.{◌≡◌, IfOk};
ghost use Rattle.wse_element.specs.Way.{is_set, is_between, in_the_way};

use std::alloc::Global;
use wse_path::{Bytes, Duplicate, Files, Memory, RelPath};

/// Whether the path is one of those that are set.
fn is_set(contents: &[(RelPath, Option<Bytes>)], path: &RelPath) -> bool
    ensures { result ≡ is_set contents.now path.now }
{
    contents.iter().any(|content| path.cmp(&content.0).is_eq())
}

/// Whether the file is above or under a path that is made present.
fn is_between(contents: &[(RelPath, Option<Bytes>)], path: &RelPath) -> bool
    ensures { result ≡ is_between contents.now path.now }
{
    contents.iter().any(|content| {
        content.1.is_some() && (path.is_under(&content.0) || content.0.is_under(path))
    })
}

/// The files outside these paths that are above or under one that is made present, in path order.
pub(crate) fn in_the_way(
    alloc: Global,
    files: &[(RelPath, Bytes)],
    contents: &[(RelPath, Option<Bytes>)],
) -> Result<Files, Memory>
    ensures { IfOk result (λ paths. paths ≡ in_the_way files.now contents.now) }
{
    let mut found = Vec::new(alloc);
    for file in files {
        if !is_set(contents, &file.0) && is_between(contents, &file.0) {
            found.push(file.0.duplicate(alloc)?)?;
        }
    }
    Ok(Files::new(found))
}
