// Trees with changes over them, and operations one after another.
use crate::given::{bytes, name_of, op_of, path, push_bytes, text_of, tree_of};
use std::alloc::Global;
use std::test::Fail;
use wse_overlay::{Contents, Overlay};
use wse_path::{Bytes, Files, Memory, RelPath, ResourceOp, Tree};
use wse_resource::{OpRefused, operate_on};

/// Puts a file that fits, or is there, and else nothing.
fn put<C: Contents>(
    alloc: Global,
    overlay: &mut Overlay<'_, C>,
    path: RelPath,
    bytes: Bytes,
) -> Result<(), Memory> {
    if overlay.get(&path).is_some() || overlay.fits(alloc, &path)? {
        overlay.put(path, bytes)?;
    }
    Ok(())
}

/// The files below without those of `gone`, and with those of `new`, each with the text `new`.
fn changed<'a, C: Contents>(
    alloc: Global,
    below: &'a C,
    gone: &str,
    new: &str,
) -> Result<Overlay<'a, C>, Fail> {
    let mut overlay = Overlay::new(alloc, below);
    for file in gone.split(' ') {
        overlay.remove(alloc, &path(alloc, file)?)?;
    }
    for file in new.split(' ') {
        put(
            alloc,
            &mut overlay,
            path(alloc, file)?,
            bytes(alloc, "new")?,
        )?;
    }
    Ok(overlay)
}

fn push_above(alloc: Global, text: &mut String, above: Option<&RelPath>) -> Result<(), Memory> {
    match above {
        Some(file) => {
            text.push_str(" beneath ")?;
            Ok(text.push_str(file.text(alloc)?.as_str())?)
        }
        None => Ok(()),
    }
}

fn push_under(alloc: Global, text: &mut String, files: &Files) -> Result<(), Memory> {
    for file in files.as_slice() {
        text.push(' ')?;
        text.push_str(file.text(alloc)?.as_str())?;
    }
    Ok(())
}

/// The text of a file, the file above it, whether it is a folder, and the files under it.
fn seen<C: Contents>(alloc: Global, overlay: &C, at: &RelPath) -> Result<String, Memory> {
    let mut text = String::new(alloc);
    push_bytes(&mut text, overlay.get(at).unwrap_or(b"-"))?;
    push_above(alloc, &mut text, overlay.file_above(at))?;
    text.push_str(if overlay.is_folder(alloc, at)? {
        " holds"
    } else {
        ""
    })?;
    push_under(alloc, &mut text, &overlay.under(alloc, at)?)?;
    Ok(text)
}

/// What a path shows over `a` and `d/x`, after `d/x` is taken away and `d` is put.
const FILE_FOR_FOLDER: &str = "a | a
a/b | - beneath a
d | new
d/x | - beneath d
d/x/y | - beneath d
e | -";

/// What a path shows over `a`, `b.c`, `d/x` and `d/z`, after `a` and `d/x` are taken away and `a/c`, `a/b` and `d/y` are put.
const FOLDER_FOR_FILE: &str = "a | - holds a/b a/c
a/b | new
a/b/c | - beneath a/b
b | -
b.c | b.c
d | - holds d/y d/z
d/x | -";

fn shows<C: Contents>(alloc: Global, overlay: &C, row: &str) -> Result<bool, Fail> {
    let mut parts = row.split('|');
    let at = parts.next().unwrap_or("").trim();
    let wanted = parts.next().unwrap_or("?").trim();
    Ok(seen(alloc, overlay, &path(alloc, at)?)?.as_str() == wanted)
}

fn shows_all<C: Contents>(alloc: Global, overlay: &C, rows: &str) -> Result<bool, Fail> {
    for row in rows.lines() {
        if !shows(alloc, overlay, row)? {
            return Ok(false);
        }
    }
    Ok(true)
}

fn shows_after(
    alloc: Global,
    files: &str,
    gone: &str,
    new: &str,
    rows: &str,
) -> Result<bool, Fail> {
    let tree = tree_of(alloc, files)?;
    let overlay = changed(alloc, &tree, gone, new)?;
    shows_all(alloc, &overlay, rows)
}

#[test]
fn a_file_in_place_of_a_folder_is_shown(rt: HostRuntime) -> Result<(), Fail> {
    assert!(rt; shows_after(rt.alloc(), "a d/x", "d/x", "d", FILE_FOR_FOLDER)?);
    Ok(())
}

#[test]
fn a_folder_in_place_of_a_file_is_shown(rt: HostRuntime) -> Result<(), Fail> {
    assert!(rt;
        shows_after(
            rt.alloc(),
            "a b.c d/x d/z",
            "a d/x",
            "a/c a/b d/y",
            FOLDER_FOR_FILE
        )?
    );
    Ok(())
}

/// What a path shows over `a` and `d/x`, after `d/x` is taken away and `d` is put, and then `a` is taken away and `a/b`
/// is put over that, and `d` put once more.
const TWICE: &str = "a | - holds a/b
a/b | new
a/b/c | - beneath a/b
d | new
d/x | - beneath d";

fn shows_twice(alloc: Global, files: &str, rows: &str) -> Result<bool, Fail> {
    let tree = tree_of(alloc, files)?;
    let once = changed(alloc, &tree, "d/x", "d")?;
    let twice = changed(alloc, &once, "a", "a/b d")?;
    Ok(shows_all(alloc, &twice, rows)? && shows_all(alloc, &once, FILE_FOR_FOLDER)?)
}

#[test]
fn changes_stand_over_changes(rt: HostRuntime) -> Result<(), Fail> {
    assert!(rt; shows_twice(rt.alloc(), "a d/x", TWICE)?);
    Ok(())
}

/// Files, operations one after another, and what they refuse and change together.
const RUNS: &str = "a | delete a | a a>-;
a d/x | delete d/x; create d; rename d e | d/x d/x>-;e ->;
a | create b; delete b |
a b | rename a c; rename c a |
d/x d/y | rename d e; rename e/x d | d ->d/x;d/x d/x>-;d/y d/y>-;e/y ->d/y;
a b | rename a c; create b; delete a | exists not found a a>-;c ->a;
a | delete a; create a/b; create a; delete a recursive; create a | is a folder a a>;
a/b a/c | delete a recursive; delete a; rename a b | not found not found a/b a/b>-;a/c a/c>-;";

fn name_and_space(alloc: Global, why: &OpRefused) -> Result<String, Memory> {
    let mut name = name_of(alloc, why)?;
    name.push(' ')?;
    Ok(name)
}

/// Does the operation, and tells the refusal.
fn refusal(
    alloc: Global,
    overlay: &mut Overlay<'_, Tree>,
    op: &ResourceOp,
) -> Result<String, Memory> {
    match operate_on(alloc, overlay, op) {
        Ok(()) => Ok(String::new(alloc)),
        Err(why) => name_and_space(alloc, &why),
    }
}

fn answered(alloc: Global, tree: &Tree, asked: &str) -> Result<String, Fail> {
    let mut overlay = Overlay::new(alloc, tree);
    let mut text = String::new(alloc);
    for one in asked.split(';') {
        let op = op_of(alloc, one.trim())?;
        text.push_str(refusal(alloc, &mut overlay, &op)?.as_str())?;
    }
    let changes = overlay.into_changes(alloc)?;
    text.push_str(text_of(alloc, &changes)?.as_str())?;
    Ok(text)
}

fn runs_right(alloc: Global, row: &str) -> Result<bool, Fail> {
    let mut parts = row.split('|');
    let tree = tree_of(alloc, parts.next().unwrap_or(""))?;
    let asked = parts.next().unwrap_or("");
    let wanted = parts.next().unwrap_or("?").trim();
    Ok(answered(alloc, &tree, asked)?.as_str() == wanted)
}

fn run_right(alloc: Global, rows: &str) -> Result<bool, Fail> {
    for row in rows.lines() {
        if !runs_right(alloc, row)? {
            return Ok(false);
        }
    }
    Ok(true)
}

#[test]
fn operations_go_on_over_their_changes(rt: HostRuntime) -> Result<(), Fail> {
    assert!(rt; run_right(rt.alloc(), RUNS)?);
    Ok(())
}
