// Files as a list of entries.
ghost use Rattle.std.specs.Prelude.{◌≡◌, ◌∷◌, filter, IfOk, OnOk};
ghost use Rattle.std.specs.FinMap.{find, put};
ghost use Rattle.std.specs.Option.{option_copied};
ghost use Rattle.wse_path.specs.Order.{path_cmp};
ghost use Rattle.wse_path.specs.PathMap.{without};
ghost use Rattle.wse_path.specs.Tree.{set_file, set_files};

use crate::contents::Contents;
use std::cmp::Ordering;
use wse_path::{Bytes, Memory, RelPath};

/// Paths with the bytes of their files.
pub type Files = Vec<(RelPath, Bytes)>;

/// The value of the first entry at the path. Takes no memory.
pub fn value_at<'a, V>(entries: &'a [(RelPath, V)], path: &RelPath) -> Option<&'a V>
    ensures { option_copied result ≡ find path_cmp path.now entries.now }
{
    for entry in entries {
        if path.cmp(&entry.0).is_eq() {
            return Some(&entry.1);
        }
    }
    None
}

/// The entries with this value at the path: in place of the value there, or else before the first entry that comes behind it.
pub fn put<V: Drop>(
    entries: Vec<(RelPath, V)>,
    path: RelPath,
    value: V,
) -> Result<Vec<(RelPath, V)>, Memory>
    ensures { IfOk result (λ all. all.items ≡ put path_cmp path value entries.items) }
{
    let mut all = entries;
    for at in 0..all.len() {
        match path.cmp(&all[at].0) {
            Ordering::Less => {
                all.insert(at, (path, value))?;
                return Ok(all);
            }
            Ordering::Equal => {
                all[at].1 = value;
                return Ok(all);
            }
            Ordering::Greater => {}
        }
    }
    all.push((path, value))?;
    Ok(all)
}

/// The entries but for those at the path.
pub fn without<V: Drop>(entries: Vec<(RelPath, V)>, path: &RelPath) -> Vec<(RelPath, V)>
    ensures { result.items ≡ without entries.items path.now }
{
    let mut all = entries;
    all.retain(|entry| !path.cmp(&entry.0).is_eq());
    all
}

/// The files with this content at the path, or without the path where it has none.
pub fn set_file(files: Files, path: RelPath, content: Option<Bytes>) -> Result<Files, Memory>
    ensures { IfOk result (λ all. all.items ≡ set_file files.items path content) }
{
    match content {
        Some(bytes) => put(files, path, bytes),
        None => Ok(without(files, &path)),
    }
}

/// The files with each of these paths set, one after another.
pub fn set_files(contents: Contents, files: Files) -> Result<Files, Memory>
    ensures { IfOk result (λ all. all.items ≡ set_files contents.items files.items) }
{
    let mut all = files;
    for (path, content) in contents {
        all = set_file(all, path, content)?;
    }
    Ok(all)
}
