// Many files of a tree that change at once.
ghost use Rattle.std.specs.Prelude.{◌≡◌, IfOk};
ghost use Rattle.wse_path.specs.Changes.{contents_of, LeadToTree};

use crate::given::{bytes, path, tree_of};
use std::alloc::Global;
use std::test::Fail;
use wse_overlay::{Contents, Overlay};
use wse_path::{Bytes, Change, Duplicate, Memory, RelPath, Tree};

// The paths whose texts stand between spaces.
fn paths(alloc: Global, texts: &str) -> Result<Vec<RelPath>, Fail> {
    let mut all = Vec::new(alloc);
    for text in texts.split(' ') {
        all.push(path(alloc, text)?)?;
    }
    Ok(all)
}

// Whether the text at that path is this one.
fn holds(alloc: Global, tree: &Tree, text: &str, content: &str) -> Result<bool, Fail> {
    Ok(tree.get(&path(alloc, text)?) == Some(content.as_bytes()))
}

// Whether these are the paths of the tree, in this order.
fn has_paths(alloc: Global, tree: &Tree, texts: &str) -> Result<bool, Fail> {
    let wanted = paths(alloc, texts)?;
    for (index, file) in wanted.iter().enumerate() {
        if tree.path_at(index) != Some(file) {
            return Ok(false);
        }
    }
    Ok(tree.count() == wanted.len())
}

// The paths whose texts stand between spaces, of which there may be none.
fn some_paths(alloc: Global, texts: &str) -> Result<Vec<RelPath>, Fail> {
    if texts.is_empty() {
        return Ok(Vec::new(alloc));
    }
    paths(alloc, texts)
}

// The names of that many files, in path order.
fn names(alloc: Global, count: u32) -> Result<String, Fail> {
    let mut all = String::new(alloc);
    for number in 0..count {
        if number > 0 {
            all.push(' ')?;
        }
        push_name(&mut all, number)?;
    }
    Ok(all)
}

fn push_name(text: &mut String, number: u32) -> Result<(), Fail> {
    text.push('f')?;
    for divisor in [1000, 100, 10, 1] {
        text.push(char::from(b'0' + (number / divisor % 10) as u8))?;
    }
    Ok(())
}

fn take_away(alloc: Global, overlay: &mut Overlay<'_, Tree>, gone: &[RelPath]) -> Result<(), Memory>
    ensures { overlay.new.base ≡ overlay.old.base }
{
    for path in gone {
        overlay.remove(alloc, path)?;
    }
    Ok(())
}

// Puts a file, if there is room for it.
fn put_one(
    alloc: Global,
    overlay: &mut Overlay<'_, Tree>,
    path: RelPath,
    bytes: Bytes,
) -> Result<(), Memory>
    ensures { overlay.new.base ≡ overlay.old.base }
{
    if overlay.get(&path).is_some() || overlay.fits(alloc, &path)? {
        overlay.put(path, bytes)?;
    }
    Ok(())
}

fn put_each(alloc: Global, overlay: &mut Overlay<'_, Tree>, new: &[RelPath]) -> Result<(), Fail>
    ensures { overlay.new.base ≡ overlay.old.base }
{
    for path in new {
        put_one(alloc, overlay, path.duplicate(alloc)?, bytes(alloc, "new")?)?;
    }
    Ok(())
}

fn contents_of(alloc: Global, changes: &[Change]) -> Result<Vec<(RelPath, Option<Bytes>)>, Memory>
    ensures { IfOk result (λ contents. contents.items ≡ contents_of changes.now) }
{
    let mut contents = Vec::new(alloc);
    for change in changes {
        contents.push((
            change.path.duplicate(alloc)?,
            change.after.duplicate(alloc)?,
        ))?;
    }
    Ok(contents)
}

// Makes the changes in the tree, all at once.
fn set_all(alloc: Global, tree: &mut Tree, changes: &[Change]) -> Result<(), Memory>
    requires { LeadToTree tree.old.files changes.now }
{
    let contents = contents_of(alloc, changes)?;
    tree.reserve(contents.len())?;
    tree.set_all(contents);
    Ok(())
}

// Takes the files `gone` away, and puts those of `new`, each with the text `new`, all at once. Says how many paths change.
fn change(alloc: Global, tree: &mut Tree, gone: &str, new: &str) -> Result<usize, Fail> {
    let gone = some_paths(alloc, gone)?;
    let new = some_paths(alloc, new)?;
    change_paths(alloc, tree, &gone, &new)
}

fn change_paths(
    alloc: Global,
    tree: &mut Tree,
    gone: &[RelPath],
    new: &[RelPath],
) -> Result<usize, Fail> {
    let mut overlay = Overlay::new(alloc, &*tree);
    take_away(alloc, &mut overlay, gone)?;
    put_each(alloc, &mut overlay, new)?;
    let changes = overlay.into_changes(alloc)?;
    set_all(alloc, tree, changes.as_slice())?;
    Ok(changes.len())
}

// Whether just these paths are in the tree after the change.
fn becomes(
    alloc: Global,
    tree: &mut Tree,
    gone: &str,
    new: &str,
    wanted: &str,
) -> Result<bool, Fail> {
    let _ = change(alloc, tree, gone, new)?;
    has_paths(alloc, tree, wanted)
}

fn becomes_a_folder(alloc: Global, made: &mut Tree) -> Result<bool, Fail> {
    Ok(
        becomes(alloc, made, "d", "d/x d/y", "a d/x d/y d.x")?
            && made.bytes() == 10
            && holds(alloc, &*made, "d/y", "new")?,
    )
}

fn becomes_a_file(alloc: Global, made: &mut Tree) -> Result<bool, Fail> {
    Ok(
        becomes(alloc, made, "d/x d/y", "d", "a d d.x")?
            && made.bytes() == 7
            && holds(alloc, &*made, "d", "new")?,
    )
}

#[test]
fn a_file_becomes_a_folder_and_a_file_again(rt: HostRuntime) -> Result<(), Fail> {
    let mut made = tree_of(rt.alloc(), "a d d.x")?;
    assert!(rt; becomes_a_folder(rt.alloc(), &mut made)?);
    assert!(rt; becomes_a_file(rt.alloc(), &mut made)?);
    Ok(())
}

// Whether so many paths change, and the tree has so many files and bytes then.
fn changes_so(
    alloc: Global,
    tree: &mut Tree,
    gone: &str,
    new: &str,
    wanted: (usize, usize, u64),
) -> Result<bool, Fail> {
    let changed = change(alloc, tree, gone, new)?;
    Ok((changed, tree.count(), tree.bytes()) == wanted)
}

fn first_and_last_change(alloc: Global, made: &mut Tree) -> Result<bool, Fail> {
    Ok(
        changes_so(alloc, made, "", "f0000 f0999", (2, 1000, 4996))?
            && holds(alloc, &*made, "f0000", "new")?
            && holds(alloc, &*made, "f0998", "f0998")?
            && holds(alloc, &*made, "f0999", "new")?,
    )
}

#[test]
fn the_first_and_the_last_of_1000_files_change(rt: HostRuntime) -> Result<(), Fail> {
    let mut made = tree_of(rt.alloc(), names(rt.alloc(), 1000)?.as_str())?;
    assert!(rt; first_and_last_change(rt.alloc(), &mut made)?);
    Ok(())
}

fn all_come_and_go(alloc: Global, all: &str) -> Result<bool, Fail> {
    let mut made = tree_of(alloc, all)?;
    Ok(
        changes_so(alloc, &mut made, all, "", (1000, 0, 0))?
            && changes_so(alloc, &mut made, "", all, (1000, 1000, 3000))?,
    )
}

#[test]
fn files_are_taken_away_all_at_once(rt: HostRuntime) -> Result<(), Fail> {
    let all = names(rt.alloc(), 1000)?;
    assert!(rt; all_come_and_go(rt.alloc(), all.as_str())?);
    Ok(())
}

fn nothing_changes(alloc: Global, made: &mut Tree) -> Result<bool, Fail> {
    Ok(
        changes_so(alloc, made, "", "", (0, 3, 5))?
            && changes_so(alloc, made, "d q", "", (0, 3, 5))?
            && has_paths(alloc, &*made, "a d/x z")?,
    )
}

#[test]
fn no_change_leaves_all_files(rt: HostRuntime) -> Result<(), Fail> {
    let mut made = tree_of(rt.alloc(), "a d/x z")?;
    assert!(rt; nothing_changes(rt.alloc(), &mut made)?);
    Ok(())
}

fn changes_alone(alloc: Global, made: &mut Tree) -> Result<bool, Fail> {
    Ok(
        changes_so(alloc, made, "d/x", "", (1, 2, 2))?
            && changes_so(alloc, made, "", "z", (1, 2, 4))?,
    )
}

#[test]
fn one_path_may_change_alone(rt: HostRuntime) -> Result<(), Fail> {
    let mut made = tree_of(rt.alloc(), "a d/x z")?;
    assert!(rt; changes_alone(rt.alloc(), &mut made)?);
    Ok(())
}
