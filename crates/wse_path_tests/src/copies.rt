use crate::make::{bytes, has_paths, holds, path, tree};
use std::alloc::Global;
use std::test::Fail;
use wse_path::{
    Change, Changes, Duplicate, Edit, Edits, Encoding, FailureKind, Label, Numbered, Operation,
    Operations, Position, ResourceOp, Text, TextEdit, What,
};

fn has_equal_text(alloc: Global, text: &str) -> Result<bool, Fail> {
    Ok(path(alloc, text)?.text(alloc)?.duplicate(alloc)?.as_str() == text)
}

fn has_equal_list(alloc: Global, texts: &str, folder: &str, file: &str) -> Result<bool, Fail> {
    let under = tree(alloc, texts)?.under(alloc, &path(alloc, folder)?)?;
    Ok(under.duplicate(alloc)?.as_slice().first() == Some(&path(alloc, file)?))
}

fn has_equal_tree(alloc: Global, text: &str) -> Result<bool, Fail> {
    let copy = tree(alloc, text)?.duplicate(alloc)?;
    Ok(has_paths(alloc, &copy, text)? && holds(alloc, &copy, text, text)?)
}

#[test]
fn copies_are_equal(rt: HostRuntime) -> Result<(), Fail> {
    let alloc = rt.alloc();
    assert!(rt; has_equal_text(alloc, "d/x")?);
    assert!(rt; has_equal_list(alloc, "d/x", "d", "d/x")?);
    assert!(rt; has_equal_tree(alloc, "d/x")?);
    Ok(())
}

fn has_equal_change(alloc: Global, text: &str) -> Result<bool, Fail> {
    let mut all = Vec::new(alloc);
    all.push(Change {
        path: path(alloc, text)?,
        before: None,
        after: Some(bytes(alloc, text)?),
    })?;
    let copy = Changes::new(all).duplicate(alloc)?;
    match copy.as_slice().first() {
        Some(change) => Ok(copy.len() == 1 && change.before.is_none() && change.after.is_some()),
        None => Ok(false),
    }
}

fn has_equal_number(alloc: Global, text: &str, number: u32) -> Result<bool, Fail> {
    let path = path(alloc, text)?;
    let made = Numbered { path, number };
    Ok(made.duplicate(alloc)?.number == number)
}

#[test]
fn copies_of_changes_are_equal(rt: HostRuntime) -> Result<(), Fail> {
    let alloc = rt.alloc();
    assert!(rt; has_equal_change(alloc, "d/x")?);
    assert!(rt; has_equal_number(alloc, "d/x", 7)?);
    Ok(())
}

fn text_edit(alloc: Global, text: &str) -> Result<TextEdit, Fail> {
    let place = Position {
        line: 2,
        character: 3,
    };
    Ok(TextEdit {
        start: place,
        end: place,
        new_text: Text::new(String::from_str(alloc, text)?),
        skipped: true,
    })
}

fn has_equal_text_edit(alloc: Global, text: &str) -> Result<bool, Fail> {
    let copy = text_edit(alloc, text)?.duplicate(alloc)?;
    Ok(copy.start.line == 2 && copy.skipped && copy.new_text.as_str() == text)
}

fn has_equal_create(alloc: Global, text: &str) -> Result<bool, Fail> {
    let what = What::Resource(ResourceOp::Create {
        path: path(alloc, text)?,
        overwrite: true,
        ignore: false,
    });
    let made = Operation {
        what,
        skipped: true,
    };
    match made.duplicate(alloc)?.what {
        What::Resource(
            ResourceOp::Create {
                path: copied,
                overwrite: true,
                ignore: false,
            },
        ) => Ok(copied == path(alloc, text)?),
        _ => Ok(false),
    }
}

fn edit(alloc: Global, text: &str) -> Result<Edit, Fail> {
    let mut edits = Vec::new(alloc);
    edits.push(text_edit(alloc, text)?)?;
    let what = What::Text {
        path: path(alloc, text)?,
        version: Some(1),
        edits: Edits::new(edits),
    };
    let mut operations = Vec::new(alloc);
    operations.push(Operation {
        what,
        skipped: false,
    })?;
    Ok(Edit {
        label: Label::new(String::new(alloc)),
        failure: FailureKind::Undo,
        encoding: Encoding::Utf16,
        operations: Operations::new(operations),
    })
}

fn has_equal_edit(alloc: Global, text: &str) -> Result<bool, Fail> {
    let copy = edit(alloc, text)?.duplicate(alloc)?;
    match copy.operations.as_slice() {
        [operation] => Ok(!operation.skipped && copy.failure == FailureKind::Undo),
        _ => Ok(false),
    }
}

#[test]
fn copies_of_edits_are_equal(rt: HostRuntime) -> Result<(), Fail> {
    let alloc = rt.alloc();
    assert!(rt; has_equal_text_edit(alloc, "x")?);
    assert!(rt; has_equal_create(alloc, "d/x")?);
    assert!(rt; has_equal_edit(alloc, "d/x")?);
    Ok(())
}
