// The paths of a store, one a line.
ghost use Rattle.std.specs.Prelude.{◌≡◌, ◌<◌, ◌++◌, Some, length, option_map, slice_get, IfOk, OnOk};
ghost use Rattle.std.specs.Option.{option_copied};
ghost use Rattle.serde_json.specs.View.{view};
ghost use Rattle.wse_path.specs.PathMap.{put_each};
ghost use Rattle.wse_show.specs.Files.{with_versions, numbered, bytes_data, file_data, file_line, files_text};

use crate::line::push_line;
use crate::object::Object;
use serde_json::Value;
use std::alloc::Global;
use wse_path::{Duplicate, Memory, PathMap, RelPath, Tree, Versions};

/// How many bytes there are, if the content is there.
fn len_of(content: Option<&[u8]>) -> Option<usize>
    ensures { result ≡ option_map length (option_copied content.entry) }
{
    match content {
        Some(bytes) => Some(bytes.len()),
        None => None,
    }
}

/// The number of bytes, or null where there is no file.
fn bytes_value(bytes: Option<usize>) -> Value
    ensures { view result ≡ bytes_data bytes }
{
    match bytes {
        Some(bytes) => Value::from(bytes),
        None => Value::Null,
    }
}

/// What is told of a path.
fn file_value(
    alloc: Global,
    bytes: Option<usize>,
    path: &RelPath,
    version: u32,
) -> Result<Value, Memory>
    ensures { IfOk result (λ value. view value ≡ file_data bytes path.now version) }
{
    let object = Object::new(alloc)
        .with("bytes", bytes_value(bytes))?
        .text("path", path.text(alloc)?.as_str())?
        .number("version", u64::from(version))?;
    Ok(object.into_value())
}

/// Puts each file with its version.
fn put_files(
    alloc: Global,
    rows: &mut PathMap<u32>,
    tree: &Tree,
    versions: &Versions,
) -> Result<(), Memory>
    ensures { OnOk result (rows.new.entries
        ≡ put_each (with_versions versions.now.entries tree.now.files) rows.old.entries) }
{
    for index in 0..tree.count() {
        let (path, _) = tree.file_at(index);
        rows.put(path.duplicate(alloc)?, versions.get(path))?;
    }
    Ok(())
}

/// The entry with that index in path order.
fn entry_at(versions: &Versions, index: usize) -> (&RelPath, u32)
    requires { index < length versions.now.entries }
    ensures { slice_get versions.now.entries index ≡ Some (result.0.now, result.1) }
{
    match (versions.path_at(index), versions.number_at(index)) {
        (Some(path), Some(number)) => (path, number),
        _ => unreachable!(),
    }
}

/// Puts each version.
fn put_versions(alloc: Global, rows: &mut PathMap<u32>, versions: &Versions) -> Result<(), Memory>
    ensures { OnOk result (rows.new.entries ≡ put_each versions.now.entries rows.old.entries) }
{
    for index in 0..versions.count() {
        let (path, number) = entry_at(versions, index);
        rows.put(path.duplicate(alloc)?, number)?;
    }
    Ok(())
}

/// Each path that is a file or has a version entry, with its version.
fn numbered(alloc: Global, tree: &Tree, versions: &Versions) -> Result<PathMap<u32>, Memory>
    ensures { IfOk result (λ rows. rows.entries ≡ numbered tree.now.files versions.now.entries) }
{
    let mut rows = PathMap::new(alloc);
    put_versions(alloc, &mut rows, versions)?;
    put_files(alloc, &mut rows, tree, versions)?;
    Ok(rows)
}

/// Appends a path's line.
fn push_file(
    alloc: Global,
    text: &mut Vec<u8>,
    tree: &Tree,
    path: &RelPath,
    version: u32,
) -> Result<(), Memory>
    ensures { OnOk result (text.new.items ≡ text.old.items ++ file_line tree.now.files (path.now, version)) }
{
    let value = file_value(alloc, len_of(tree.get(path)), path, version)?;
    push_line(alloc, text, &value)
}

/// Appends a line for each path that is a file or has a version entry, in path order.
pub fn push_files(
    alloc: Global,
    text: &mut Vec<u8>,
    tree: &Tree,
    versions: &Versions,
) -> Result<(), Memory>
    ensures { OnOk result (text.new.items ≡ text.old.items ++ files_text tree.now.files versions.now.entries) }
{
    let rows = numbered(alloc, tree, versions)?;
    for entry in rows.as_slice() {
        push_file(alloc, text, tree, &entry.0, entry.1)?;
    }
    Ok(())
}
