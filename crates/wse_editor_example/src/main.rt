// What an editor does with the answers of a language server: it finds the files that URIs name, and edits a text.
#![tactic(auto)]

use std::alloc::Global;
use std::process::ExitCode;
use std::{env, io};
use wse_edits::{EditsRefused, resolve};
use wse_path::{Encoding, Memory, Position, Text, TextEdit};
use wse_splice::apply;
use wse_text::as_text;
use wse_uri::{path_of, root_of};

const TEXT: &str = "let größe = 1;\nprint(größe);\n";

/// A line, from which character up to which, and the text in their place.
type Given = (u64, u64, u64, &'static str);

const RENAME: [Given; 2] = [(0, 4, 9, "size"), (1, 6, 11, "size")];

const CROSSED: [Given; 2] = [(0, 4, 9, "size"), (0, 8, 12, "es")];

fn edits_of(alloc: Global, list: &[Given]) -> Result<Vec<TextEdit>, Memory> {
    let mut edits = Vec::new(alloc);
    for (line, start, end, text) in list {
        let (line, start, end) = (*line, *start, *end);
        edits.push(TextEdit {
            start: Position {
                line,
                character: start,
            },
            end: Position {
                line,
                character: end,
            },
            new_text: Text::new(String::from_str(alloc, text)?),
            skipped: false,
        })?;
    }
    Ok(edits)
}

/// The text after the edits.
fn edited(alloc: Global, text: &str, list: &[Given]) -> Result<String, EditsRefused> {
    let edits = edits_of(alloc, list)?;
    let splices = resolve(alloc, text, Encoding::Utf16, &edits)?;
    let after = apply(alloc, text.as_bytes(), splices.as_slice())?;
    Ok(String::from_str(alloc, as_text(after.as_slice()).unwrap())?)
}

fn main(rt: HostRuntime) -> io::Result<ExitCode> {
    let mut words = env::args(&rt)?.skip(1);
    let word = words.next().unwrap_or(String::new(rt.alloc()));
    let root = match root_of(rt.alloc(), word.as_str()) {
        Ok(root) => root,
        Err(why) => {
            eprintln!(rt; "{word}: {why}")?;
            return Ok(ExitCode::from(1));
        }
    };
    for uri in words {
        match path_of(rt.alloc(), &root, uri.as_str()) {
            Ok(path) => println!(rt; "{path}")?,
            Err(why) => println!(rt; "{uri}: {why}")?,
        }
    }
    for list in [&RENAME, &CROSSED] {
        match edited(rt.alloc(), TEXT, list) {
            Ok(text) => print!(rt; "{text}")?,
            Err(why) => println!(rt; "{why}")?,
        }
    }
    Ok(ExitCode::from(0))
}
