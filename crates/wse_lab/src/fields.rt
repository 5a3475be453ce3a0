// Members of a step, each of its kind.
use crate::refused::Refused;
use serde_json::Value;
use std::alloc::Global;
use wse_apply::are_within_standard;
use wse_disk::Area;
use wse_path::{Bytes, Limits, RelPath, Tree};

/// The member, unless it is null.
pub fn optional<'a>(value: &'a Value, name: &'static str) -> Option<&'a Value> {
    value.get(name).filter(|found| !found.is_null())
}

/// A text.
pub fn text_in<'a>(value: &'a Value, name: &'static str) -> Result<&'a str, Refused> {
    match value.get(name) {
        Some(found) => match found.as_str() {
            Some(text) => Ok(text),
            None => Err(Refused::Member(name)),
        },
        None => Err(Refused::Member(name)),
    }
}

/// A whole number.
pub fn number_in(value: &Value, name: &'static str) -> Result<u64, Refused> {
    match optional(value, name).and_then(Value::as_u64) {
        Some(number) => Ok(number),
        None => Err(Refused::Member(name)),
    }
}

/// A whole number, or the standard one where it is missing.
pub fn number_or(value: &Value, name: &'static str, standard: u64) -> Result<u64, Refused> {
    match optional(value, name) {
        Some(_) => number_in(value, name),
        None => Ok(standard),
    }
}

/// Whether the member is true.
pub fn is_set(value: &Value, name: &'static str) -> bool {
    match value.get(name) {
        Some(found) => found.as_bool().unwrap_or(false),
        None => false,
    }
}

/// A list of whole numbers, without any where it is missing.
pub fn numbers_in(alloc: Global, value: &Value, name: &'static str) -> Result<Vec<u64>, Refused> {
    let mut all = Vec::new(alloc);
    let Some(list) = optional(value, name) else {
        return Ok(all);
    };
    let Some(items) = list.as_array() else {
        return Err(Refused::Member(name));
    };
    for item in items {
        match item.as_u64() {
            Some(number) => all.push(number)?,
            None => return Err(Refused::Member(name)),
        }
    }
    Ok(all)
}

/// A list of texts.
pub fn texts_in(alloc: Global, value: &Value, name: &'static str) -> Result<Vec<String>, Refused> {
    let mut all = Vec::new(alloc);
    let Some(items) = optional(value, name).and_then(Value::as_array) else {
        return Err(Refused::Member(name));
    };
    for item in items {
        match item.as_str() {
            Some(text) => all.push(String::from_str(alloc, text)?)?,
            None => return Err(Refused::Member(name)),
        }
    }
    Ok(all)
}

fn hex_bytes(alloc: Global, text: &str) -> Result<Vec<u8>, Refused> {
    match hex::decode(alloc, text) {
        Ok(bytes) => Ok(bytes),
        Err(_) => Err(Refused::Member("hex")),
    }
}

/// The bytes of `hex`, or of `text`.
pub fn bytes_in(alloc: Global, value: &Value) -> Result<Vec<u8>, Refused> {
    match optional(value, "hex") {
        Some(_) => hex_bytes(alloc, text_in(value, "hex")?),
        None => Ok(text_in(value, "text")?.as_bytes().to_vec(alloc)?),
    }
}

/// The path with this text.
pub fn path_of(alloc: Global, text: &str) -> Result<RelPath, Refused> {
    let mut segments = Vec::new(alloc);
    for segment in text.split('/') {
        segments.push(String::from_str(alloc, segment)?)?;
    }
    match RelPath::new(segments) {
        Ok(path) => Ok(path),
        Err(_) => Err(Refused::Member("path")),
    }
}

fn put_file(alloc: Global, tree: &mut Tree, name: &str, content: &Value) -> Result<(), Refused> {
    let path = path_of(alloc, name)?;
    let Some(text) = content.as_str() else {
        return Err(Refused::Member("files"));
    };
    if !tree.fits(&path) {
        return Err(Refused::Member("files"));
    }
    tree.put(path, Bytes::new(text.as_bytes().to_vec(alloc)?))?;
    Ok(())
}

/// The tree whose files `files` tells, from each path's text to its content.
pub fn tree_in(alloc: Global, value: &Value) -> Result<Tree, Refused> {
    let mut tree = Tree::new(alloc);
    let Some(files) = optional(value, "files") else {
        return Ok(tree);
    };
    let Some(files) = files.as_object() else {
        return Err(Refused::Member("files"));
    };
    for (name, content) in files {
        put_file(alloc, &mut tree, name.as_str(), content)?;
    }
    Ok(tree)
}

/// The limits, those of the program where one isn't told.
pub fn limits_in(value: &Value) -> Result<Limits, Refused> {
    let standard = Limits::standard();
    let limits = Limits {
        files: number_or(value, "max_files", standard.files)?,
        file_bytes: number_or(value, "max_file_bytes", standard.file_bytes)?,
        tree_bytes: number_or(value, "max_tree_bytes", standard.tree_bytes)?,
        known: number_or(value, "max_known", standard.known)?,
        weight: number_or(value, "max_weight", standard.weight)?,
        serial: number_or(value, "max_serial", standard.serial)?,
    };
    if !are_within_standard(&limits) {
        return Err(Refused::Member("limits"));
    }
    Ok(limits)
}

/// The area that `area` names.
pub fn area_in(value: &Value) -> Result<Area, Refused> {
    match text_in(value, "area")? {
        "switch" => Ok(Area::Switch),
        "log_a" => Ok(Area::LogA),
        "log_b" => Ok(Area::LogB),
        _ => Err(Refused::Member("area")),
    }
}
