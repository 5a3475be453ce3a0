// What an edit does, as text.
use std::alloc::Global;
use wse_apply::{Performed, Reason, Skip};
use wse_path::{Bytes, Files, Hit, Memory, RelPath, Which};
use wse_resource::OpRefused;

/// A content that isn't there is `-`, and one that is no text `?`.
fn text_or_mark(content: &Option<Bytes>) -> &str {
    match content {
        Some(bytes) => str::from_utf8(bytes.as_slice()).unwrap_or("?"),
        None => "-",
    }
}

/// The content with `$` for line ends.
fn push_content(text: &mut String, content: &Option<Bytes>) -> Result<(), Memory> {
    for point in text_or_mark(content).chars() {
        text.push(if point == '\n' { '$' } else { point })?;
    }
    Ok(())
}

fn push_number(alloc: Global, text: &mut String, number: u64) -> Result<(), Memory> {
    text.push_str(format!(in alloc; "{number}")?.as_str())?;
    Ok(())
}

fn push_files(alloc: Global, text: &mut String, files: &Files) -> Result<(), Memory> {
    for file in files.as_slice() {
        text.push(' ')?;
        text.push_str(file.text(alloc)?.as_str())?;
    }
    Ok(())
}

fn name_of(why: &OpRefused) -> &'static str {
    match why {
        OpRefused::Exists => "exists",
        OpRefused::IsFolder => "is a folder",
        OpRefused::Beneath { .. } => "beneath",
        OpRefused::NotFound => "not found",
        OpRefused::NotEmpty => "not empty",
        OpRefused::IntoItself => "into itself",
        OpRefused::HoldsSource => "holds source",
        OpRefused::PathLimit { .. } => "path limit",
        OpRefused::Memory => "memory",
    }
}

fn path_of(why: &OpRefused) -> Option<&RelPath> {
    match why {
        OpRefused::Beneath { file } => Some(file),
        OpRefused::PathLimit { from } => Some(from),
        _ => None,
    }
}

fn push_refused(alloc: Global, text: &mut String, why: &OpRefused) -> Result<(), Memory> {
    text.push_str(name_of(why))?;
    if let Some(path) = path_of(why) {
        text.push(' ')?;
        text.push_str(path.text(alloc)?.as_str())?;
    }
    Ok(())
}

fn limit_name(which: Which) -> &'static str {
    match which {
        Which::Files => "files",
        Which::FileBytes => "file bytes",
        Which::TreeBytes => "tree bytes",
        _ => "another limit",
    }
}

fn push_hit(alloc: Global, text: &mut String, hit: &Hit) -> Result<(), Memory> {
    text.push_str("limit ")?;
    text.push_str(limit_name(hit.which))?;
    text.push(' ')?;
    push_number(alloc, text, hit.would_be)
}

fn push_pair(alloc: Global, text: &mut String, name: &str, a: u64, b: u64) -> Result<(), Memory> {
    text.push_str(name)?;
    text.push(' ')?;
    push_number(alloc, text, a)?;
    text.push(' ')?;
    push_number(alloc, text, b)
}

fn push_reason(alloc: Global, text: &mut String, why: &Reason) -> Result<(), Memory> {
    match why {
        Reason::Op(why) => push_refused(alloc, text, why),
        Reason::NotText { at } => push_pair(alloc, text, "not text", *at as u64, 0),
        Reason::Inside { edit, char_start } => {
            push_pair(alloc, text, "inside", *edit, *char_start as u64)
        }
        Reason::Overlap { first, second } => push_pair(alloc, text, "overlap", *first, *second),
        Reason::Version { have, want } => {
            push_pair(
                alloc,
                text,
                "version",
                u64::from(*have),
                want.unsigned_abs(),
            )
        }
        Reason::Locked { files } => {
            text.push_str("locked")?;
            push_files(alloc, text, files)
        }
        Reason::Limit(hit) => push_hit(alloc, text, hit),
    }
}

fn push_failed(
    alloc: Global,
    text: &mut String,
    failed: &Option<(u64, Reason)>,
) -> Result<(), Memory> {
    match failed {
        Some((index, why)) => {
            push_number(alloc, text, *index)?;
            text.push(' ')?;
            push_reason(alloc, text, why)
        }
        None => Ok(text.push_str("done")?),
    }
}

fn push_skip(alloc: Global, text: &mut String, skip: &Skip) -> Result<(), Memory> {
    text.push(' ')?;
    push_number(alloc, text, skip.operation)?;
    match skip.edit {
        Some(edit) => {
            text.push('.')?;
            push_number(alloc, text, edit)
        }
        None => Ok(()),
    }
}

fn push_changes(alloc: Global, text: &mut String, done: &Performed) -> Result<(), Memory> {
    for change in done.changes.as_slice() {
        text.push(' ')?;
        text.push_str(change.path.text(alloc)?.as_str())?;
        text.push(':')?;
        push_content(text, &change.before)?;
        text.push('>')?;
        push_content(text, &change.after)?;
    }
    Ok(())
}

fn push_bumps(alloc: Global, text: &mut String, done: &Performed) -> Result<(), Memory> {
    for bump in done.bumps.as_slice() {
        text.push(' ')?;
        text.push_str(bump.path.text(alloc)?.as_str())?;
        text.push('+')?;
        push_number(alloc, text, u64::from(bump.number))?;
    }
    Ok(())
}

fn push_skips(alloc: Global, text: &mut String, done: &Performed) -> Result<(), Memory> {
    for skip in done.skipped.as_slice() {
        push_skip(alloc, text, skip)?;
    }
    Ok(())
}

fn push_told(alloc: Global, text: &mut String, done: &Performed) -> Result<(), Memory> {
    push_failed(alloc, text, &done.failed)?;
    text.push(',')?;
    push_changes(alloc, text, done)?;
    text.push(',')?;
    push_bumps(alloc, text, done)?;
    text.push(',')?;
    push_skips(alloc, text, done)
}

/// What failed, and then behind a comma each what changes, which versions rise, and what was left out.
pub fn told(alloc: Global, done: &Performed) -> Result<String, Memory> {
    let mut text = String::new(alloc);
    push_told(alloc, &mut text, done)?;
    Ok(text)
}
