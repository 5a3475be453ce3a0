// Values made from text.
use std::alloc::Global;
use std::test::Fail;
use wse_path::{Bytes, Memory, PathRefused, RelPath, Tree};

/// What these segments make.
pub fn try_path(alloc: Global, segments: &[&str]) -> Result<Result<RelPath, PathRefused>, Memory> {
    let mut all = Vec::new(alloc);
    for segment in segments {
        all.push(String::from_str(alloc, segment)?)?;
    }
    Ok(RelPath::new(all))
}

/// The path with that text.
pub fn path(alloc: Global, text: &str) -> Result<RelPath, Fail> {
    Ok(RelPath::from_text(alloc, text)?)
}

/// The paths whose texts stand between spaces.
pub fn paths(alloc: Global, texts: &str) -> Result<Vec<RelPath>, Fail> {
    let mut all = Vec::new(alloc);
    for text in texts.split(' ') {
        all.push(path(alloc, text)?)?;
    }
    Ok(all)
}

/// The text as bytes.
pub fn bytes(alloc: Global, text: &str) -> Result<Bytes, Fail> {
    Ok(Bytes::new(text.as_bytes().to_vec(alloc)?))
}

/// Puts a file, and answers whether there is room for it.
pub fn put(alloc: Global, tree: &mut Tree, text: &str, content: &str) -> Result<bool, Fail> {
    let file = path(alloc, text)?;
    let content = bytes(alloc, content)?;
    if tree.get(&file).is_none() && !tree.fits(&file) {
        return Ok(false);
    }
    tree.put(file, content)?;
    Ok(true)
}

/// A tree with files at these paths, whose texts stand between spaces. Each file holds its path's text.
pub fn tree(alloc: Global, texts: &str) -> Result<Tree, Fail> {
    let mut made = Tree::new(alloc);
    for text in texts.split(' ') {
        if !put(alloc, &mut made, text, text)? {
            break;
        }
    }
    Ok(made)
}

/// Whether the text at that path is this one.
pub fn holds(alloc: Global, tree: &Tree, text: &str, content: &str) -> Result<bool, Fail> {
    Ok(tree.get(&path(alloc, text)?) == Some(content.as_bytes()))
}

/// Whether these are the paths of the tree, in this order.
pub fn has_paths(alloc: Global, tree: &Tree, texts: &str) -> Result<bool, Fail> {
    let wanted = paths(alloc, texts)?;
    for (index, file) in wanted.iter().enumerate() {
        if tree.path_at(index) != Some(file) {
            return Ok(false);
        }
    }
    Ok(tree.count() == wanted.len())
}

/// Takes the file away, and answers whether it was there and isn't any more.
pub fn remove(alloc: Global, tree: &mut Tree, text: &str) -> Result<bool, Fail> {
    let file = path(alloc, text)?;
    Ok(tree.remove(&file) && tree.get(&file).is_none())
}

/// Puts an empty file into room that was made for it.
pub fn put_in_room(alloc: Global, tree: &mut Tree, text: &str) -> Result<bool, Fail> {
    let file = path(alloc, text)?;
    tree.reserve(1)?;
    if !tree.fits(&file) {
        return Ok(false);
    }
    tree.put_reserved(file, bytes(alloc, "")?);
    Ok(true)
}
