// Paths, versions and replies from text.
use std::alloc::Global;
use std::test::Fail;
use wse_history::Answer;
use wse_path::{Bumps, Files, Numbered, RelPath};
use wse_reply::{Reply, reply_text};

/// The path with this text.
pub fn path(alloc: Global, text: &str) -> Result<RelPath, Fail> {
    Ok(RelPath::from_text(alloc, text)?)
}

/// The paths, cut at spaces.
pub fn files(alloc: Global, text: &str) -> Result<Files, Fail> {
    let mut files = Vec::new(alloc);
    for name in text.split(' ') {
        files.push(path(alloc, name)?)?;
    }
    Ok(Files::new(files))
}

/// Version 2 at each of the paths.
pub fn changed(alloc: Global, text: &str) -> Result<Bumps, Fail> {
    let mut changed = Vec::new(alloc);
    for name in text.split(' ') {
        let path = path(alloc, name)?;
        changed.push(Numbered { path, number: 2 })?;
    }
    Ok(Bumps::new(changed))
}

/// Whether the answer to line 7 is this text and a line's end.
pub fn reads(alloc: Global, answer: Answer, text: &str) -> Result<bool, Fail> {
    let told = reply_text(alloc, 7, &Reply::Answer(answer))?;
    let Some((end, line)) = told.as_slice().split_last() else {
        return Ok(false);
    };
    Ok(*end == b'\n' && line == text.as_bytes())
}
