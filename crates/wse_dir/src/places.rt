// Places of the file system.
use crate::kinds::refuse_link;
use std::io;
use std::path::Path;
use std::rt::Files;
use wse_path::RelPath;

/// The folder in which the place lies.
pub fn parent_of(place: &str) -> &str {
    match Path::new(place).parent() {
        Some(parent) => {
            if parent.as_str().is_empty() {
                "."
            } else {
                parent.as_str()
            }
        }
        None => ".",
    }
}

/// One name further down.
pub fn go_down(place: &mut String, name: &str) -> io::Result<()> {
    place.push('/')?;
    place.push_str(name)?;
    Ok(())
}

/// One name further down, where no link stands.
fn go_safely_down<R: Files>(rt: &R, place: &mut String, name: &str) -> io::Result<()> {
    go_down(place, name)?;
    refuse_link(rt, place.as_str())
}

/// The place of the first `depth` segments of a path. No link stands on the way to it from TREE, nor there. A place that is
/// too long for the system is refused.
pub fn place_of<R: Files + AllocGlobal>(
    rt: &R,
    tree: &str,
    path: &RelPath,
    depth: usize,
) -> io::Result<String> {
    let mut place = String::from_str(rt.alloc(), tree)?;
    for segment in path.segments().iter().take(depth) {
        go_safely_down(rt, &mut place, segment.as_str())?;
    }
    Ok(place)
}
