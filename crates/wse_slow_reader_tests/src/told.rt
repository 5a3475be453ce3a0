// What a slow reading tells, in words.
use std::alloc::Global;
use std::test::Fail;
use wse_path::RelPath;
use wse_slow_reader::{Image, PlainState, SlowlyRead, read_slowly};

fn name_of(path: &RelPath) -> &str {
    path.segment(0).unwrap_or("?")
}

// The files with their lengths, behind a stroke the paths with their versions, and behind another the ids.
fn write_state(text: &mut String, state: &PlainState) -> Result<(), Fail> {
    for file in &state.files {
        write!(text, "{}:{} ", name_of(&file.0), file.1.len())?;
    }
    for version in &state.versions {
        write!(text, "/ {}{} ", name_of(&version.0), version.1)?;
    }
    for element in &state.records {
        write!(text, "/ {} ", element.id())?;
    }
    write!(text, "/ {} {}", state.next_id, state.serial)?;
    Ok(())
}

/// What the image stands for, in words.
pub fn told(alloc: Global, image: &Image) -> Result<String, Fail> {
    let mut text = String::new(alloc);
    match read_slowly(alloc, image)? {
        SlowlyRead::Store(state) => write_state(&mut text, &state)?,
        SlowlyRead::NoStore { at } => write!(text, "none at {at}")?,
    }
    Ok(text)
}
