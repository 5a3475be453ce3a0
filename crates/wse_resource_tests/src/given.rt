// Trees and operations from text, and answers as text.
use std::alloc::Global;
use std::test::Fail;
use wse_path::{Bytes, Change, Changes, Memory, RelPath, ResourceOp, Tree};
use wse_resource::{OpRefused, operate};

/// The path with this text.
pub fn path(alloc: Global, text: &str) -> Result<RelPath, Fail> {
    let mut segments = Vec::new(alloc);
    for segment in text.split('/') {
        segments.push(String::from_str(alloc, segment)?)?;
    }
    Ok(RelPath::new(segments)?)
}

/// A text's bytes.
pub fn bytes(alloc: Global, text: &str) -> Result<Bytes, Memory> {
    Ok(Bytes::new(text.as_bytes().to_vec(alloc)?))
}

/// Puts a file that fits, or is there, and else nothing.
pub fn put(tree: &mut Tree, path: RelPath, bytes: Bytes) -> Result<(), Memory> {
    if tree.get(&path).is_some() || tree.fits(&path) {
        tree.put(path, bytes)?;
    }
    Ok(())
}

/// The tree with these files, cut at spaces, each with its own path as its text.
pub fn tree_of(alloc: Global, files: &str) -> Result<Tree, Fail> {
    let mut tree = Tree::new(alloc);
    for file in files.split(' ') {
        if !file.is_empty() {
            put(&mut tree, path(alloc, file)?, bytes(alloc, file)?)?;
        }
    }
    Ok(tree)
}

/// The operation that is asked: `create PATH`, `rename PATH PATH` or `delete PATH`, and the options that are set.
pub fn op_of(alloc: Global, asked: &str) -> Result<ResourceOp, Fail> {
    let ignore = asked.contains("ignore");
    let overwrite = asked.contains("overwrite");
    let recursive = asked.contains("recursive");
    let mut words = asked.split(' ');
    let kind = words.next().unwrap_or("");
    let path = path(alloc, words.next().unwrap_or(""))?;
    if kind == "create" {
        return Ok(ResourceOp::Create {
            path,
            overwrite,
            ignore,
        });
    }
    if kind == "delete" {
        return Ok(ResourceOp::Delete {
            path,
            recursive,
            ignore,
        });
    }
    renaming(alloc, path, words.next().unwrap_or(""), overwrite, ignore)
}

fn renaming(
    alloc: Global,
    from: RelPath,
    to: &str,
    overwrite: bool,
    ignore: bool,
) -> Result<ResourceOp, Fail> {
    let to = path(alloc, to)?;
    Ok(ResourceOp::Rename {
        from,
        to,
        overwrite,
        ignore,
    })
}

/// Each byte as a character.
pub fn push_bytes(text: &mut String, bytes: &[u8]) -> Result<(), Memory> {
    for byte in bytes {
        text.push(char::from(*byte))?;
    }
    Ok(())
}

fn bytes_or_dash(bytes: &Option<Bytes>) -> &[u8] {
    match bytes {
        Some(bytes) => bytes.as_slice(),
        None => b"-",
    }
}

fn push_change(alloc: Global, text: &mut String, change: &Change) -> Result<(), Memory> {
    text.push_str(change.path.text(alloc)?.as_str())?;
    text.push(' ')?;
    push_bytes(text, bytes_or_dash(&change.before))?;
    text.push('>')?;
    push_bytes(text, bytes_or_dash(&change.after))
}

/// Each changed path with its old and its new text.
pub fn text_of(alloc: Global, changes: &Changes) -> Result<String, Memory> {
    let mut text = String::new(alloc);
    for change in changes.as_slice() {
        push_change(alloc, &mut text, change)?;
        text.push(';')?;
    }
    Ok(text)
}

/// A refusal in words.
pub fn name_of(alloc: Global, why: &OpRefused) -> Result<String, Memory> {
    Ok(why.to_string(alloc)?)
}

/// What the operation changes, or why it is refused.
pub fn answer(alloc: Global, tree: &Tree, op: &ResourceOp) -> Result<String, Memory> {
    match operate(alloc, tree, op) {
        Ok(changes) => text_of(alloc, &changes),
        Err(why) => name_of(alloc, &why),
    }
}

fn push_file(alloc: Global, text: &mut String, tree: &Tree, path: &RelPath) -> Result<(), Memory> {
    text.push_str(path.text(alloc)?.as_str())?;
    text.push('=')?;
    push_bytes(text, tree.get(path).unwrap_or(b"?"))?;
    Ok(text.push(';')?)
}

/// Each file with its bytes.
pub fn listed(alloc: Global, tree: &Tree) -> Result<String, Memory> {
    let mut text = String::new(alloc);
    for index in 0..tree.count() {
        if let Some(path) = tree.path_at(index) {
            push_file(alloc, &mut text, tree, path)?;
        }
    }
    Ok(text)
}
