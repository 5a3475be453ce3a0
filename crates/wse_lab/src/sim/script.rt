// A tree and lines, drawn.
use crate::fields::path_of;
use crate::sim::dice::Dice;
use crate::sim::lines::{line, path};
use std::alloc::Global;
use wse_path::{Bytes, Memory, Tree};

/// What a store is made over, and the lines that it answers.
#[derive(Drop)]
pub struct Script {
    pub tree: Tree,
    pub lines: Vec<String>,
}

fn put_some(alloc: Global, tree: &mut Tree, name: &str) -> Result<(), Memory> {
    let Ok(path) = path_of(alloc, name) else {
        return Err(Memory);
    };
    if tree.fits(&path) {
        tree.put(path, Bytes::new(name.as_bytes().to_vec(alloc)?))?;
    }
    Ok(())
}

fn draw_tree(alloc: Global, dice: &mut Dice) -> Result<Tree, Memory> {
    let mut tree = Tree::new(alloc);
    for _ in 0..8 {
        put_some(alloc, &mut tree, path(dice))?;
    }
    Ok(tree)
}

fn draw_lines(alloc: Global, dice: &mut Dice) -> Result<Vec<String>, Memory> {
    let mut lines = Vec::new(alloc);
    for _ in 0..dice.roll(11).saturating_add(10) {
        lines.push(line(alloc, dice)?)?;
    }
    Ok(lines)
}

impl Script {
    /// A tree of some files, each with its name as content, and ten to twenty lines.
    pub fn draw(alloc: Global, dice: &mut Dice) -> Result<Script, Memory> {
        let tree = draw_tree(alloc, dice)?;
        let lines = draw_lines(alloc, dice)?;
        Ok(Script { tree, lines })
    }
}

fn tell_tree(alloc: Global, tree: &Tree, out: &mut String) -> Result<(), Memory> {
    out.push_str(r#"{"step":"tree","files":{"#)?;
    for index in 0..tree.count() {
        if index > 0 {
            out.push(',')?;
        }
        let (path, _) = tree.file_at(index);
        let text = path.text(alloc)?;
        write!(out, "\"{}\":\"{}\"", text.as_str(), text.as_str())?;
    }
    out.push_str("}}\n")?;
    Ok(())
}

/// Appends the script, as the laboratory reads it.
pub fn tell_script(alloc: Global, script: &Script, out: &mut String) -> Result<(), Memory> {
    tell_tree(alloc, &script.tree, out)?;
    out.push_str("{\"step\":\"init\"}\n{\"step\":\"start\"}\n")?;
    for line in &script.lines {
        out.push_str(line.as_str())?;
        out.push('\n')?;
    }
    Ok(())
}
