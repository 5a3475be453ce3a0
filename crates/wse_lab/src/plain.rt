// Bytes as text.
use std::alloc::Global;
use std::str;
use wse_path::{Memory, RelPath};

/// Appends the path's text.
pub fn push_path(alloc: Global, out: &mut String, path: &RelPath) -> Result<(), Memory> {
    let text = path.text(alloc)?;
    out.push_str(text.as_str())?;
    Ok(())
}

fn push_quoted(out: &mut String, text: &str) -> Result<(), Memory> {
    out.push('"')?;
    for character in text.chars() {
        match character {
            '\n' => out.push_str("\\n")?,
            character => out.push(character)?,
        }
    }
    out.push('"')?;
    Ok(())
}

/// Appends bytes in hexadecimal digits.
pub fn push_hex(alloc: Global, out: &mut String, bytes: &[u8]) -> Result<(), Memory> {
    let digits = hex::encode(alloc, bytes)?;
    out.push_str(digits.as_str())?;
    Ok(())
}

/// Appends a file's bytes: as a text between quotes where they are UTF-8, and else in hexadecimal digits.
pub fn push_content(alloc: Global, out: &mut String, bytes: &[u8]) -> Result<(), Memory> {
    match str::from_utf8(bytes) {
        Ok(text) => push_quoted(out, text),
        Err(_) => push_hex(alloc, out, bytes),
    }
}
