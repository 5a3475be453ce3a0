// Limits that a row names.
use wse_path::Limits;

fn number(text: &str) -> u64 {
    text.parse().unwrap_or(0)
}

/// The limits of the program, but for those that the words name, as `weight=515`.
pub fn limits_in(words: &str) -> Limits {
    let mut limits = Limits::standard();
    for word in words.split(' ') {
        match word.split_once('=') {
            Some(("known", text)) => limits.known = number(text),
            Some(("weight", text)) => limits.weight = number(text),
            Some(("serial", text)) => limits.serial = number(text),
            Some(("files", text)) => limits.files = number(text),
            Some(("file_bytes", text)) => limits.file_bytes = number(text),
            Some(("tree_bytes", text)) => limits.tree_bytes = number(text),
            _ => (),
        }
    }
    limits
}
