// Histories, limits and edits from text.
use std::alloc::Global;
use std::test::Fail;
use wse_apply::{are_within_standard, limit_hit};
use wse_element::Elements;
use wse_history::{Answer, History, Planned};
use wse_path::{
    Command, Edit, Edits, Encoding, FailureKind, Items, Label, Limits, Memory, Operation,
    Operations, Position, RelPath, ResourceOp, Text, TextEdit, Tree, Versions, What,
};
use wse_stacks::Stacks;

/// The path with this text.
pub fn path(alloc: Global, text: &str) -> Result<RelPath, Fail> {
    let mut segments = Vec::new(alloc);
    for segment in text.split('/') {
        segments.push(String::from_str(alloc, segment)?)?;
    }
    Ok(RelPath::new(segments)?)
}

/// The text with line ends where it has `$`.
fn with_line_ends(alloc: Global, text: &str) -> Result<String, Memory> {
    let mut lines = String::new(alloc);
    for (index, line) in text.split('$').enumerate() {
        if index > 0 {
            lines.push('\n')?;
        }
        lines.push_str(line)?;
    }
    Ok(lines)
}

fn number(text: &str) -> u64 {
    text.parse().unwrap_or(0)
}

/// The limits of the program, but for those that are given, as `weight=515`.
pub fn limits_of(words: &str) -> Limits {
    let mut limits = Limits::standard();
    for word in words.split(' ') {
        match word.split_once('=') {
            Some(("known", text)) => limits.known = number(text),
            Some(("weight", text)) => limits.weight = number(text),
            Some(("serial", text)) => limits.serial = number(text),
            Some(("files", text)) => limits.files = number(text),
            Some(("file_bytes", text)) => limits.file_bytes = number(text),
            Some(("tree_bytes", text)) => limits.tree_bytes = number(text),
            _ => (),
        }
    }
    limits
}

fn kind_of(words: &str) -> FailureKind {
    if words.contains("text-only") {
        return FailureKind::TextOnlyTransactional;
    }
    if words.contains("transactional") {
        return FailureKind::Transactional;
    }
    if words.contains("undo") {
        return FailureKind::Undo;
    }
    FailureKind::Abort
}

fn encoding_of(words: &str) -> Encoding {
    if words.contains("utf-8") {
        return Encoding::Utf8;
    }
    if words.contains("utf-32") {
        return Encoding::Utf32;
    }
    Encoding::Utf16
}

/// `LINE:CHARACTER`.
fn position_of(text: &str) -> Position {
    let (line, character) = text.split_once(':').unwrap_or(("0", text));
    Position {
        line: number(line),
        character: number(character),
    }
}

/// `RANGE=TEXT`, where the range is one position or two, as `0:1-0:2`. A skipped edit has a `?` in front.
fn text_edit_of(alloc: Global, word: &str) -> Result<TextEdit, Fail> {
    let (range, text) = word.split_once('=').unwrap_or((word, ""));
    let range = range.trim_start_matches('?');
    let (start, end) = range.split_once('-').unwrap_or((range, range));
    Ok(TextEdit {
        start: position_of(start),
        end: position_of(end),
        new_text: Text::new(with_line_ends(alloc, text)?),
        skipped: word.starts_with('?'),
    })
}

/// `PATH VERSION EDIT ..`, where a version that isn't asked for is `-`.
fn edits_of(alloc: Global, words: &str) -> Result<What, Fail> {
    let mut words = words.split(' ');
    let file = path(alloc, words.next().unwrap_or(""))?;
    let version = words.next().unwrap_or("-").parse().ok();
    let mut edits = Vec::new(alloc);
    for word in words {
        edits.push(text_edit_of(alloc, word)?)?;
    }
    Ok(What::Text {
        path: file,
        version,
        edits: Edits::new(edits),
    })
}

/// `create PATH`, `rename PATH PATH` or `delete PATH`, and the options that are set.
fn resource_of(alloc: Global, asked: &str) -> Result<ResourceOp, Fail> {
    let ignore = asked.contains("ignore");
    let overwrite = asked.contains("overwrite");
    let recursive = asked.contains("recursive");
    let mut words = asked.split(' ');
    let kind = words.next().unwrap_or("");
    let path = path(alloc, words.next().unwrap_or(""))?;
    if kind == "create" {
        return Ok(ResourceOp::Create {
            path,
            overwrite,
            ignore,
        });
    }
    if kind == "delete" {
        return Ok(ResourceOp::Delete {
            path,
            recursive,
            ignore,
        });
    }
    renaming(alloc, path, words.next().unwrap_or(""), overwrite, ignore)
}

fn renaming(
    alloc: Global,
    from: RelPath,
    to: &str,
    overwrite: bool,
    ignore: bool,
) -> Result<ResourceOp, Fail> {
    Ok(ResourceOp::Rename {
        from,
        to: path(alloc, to)?,
        overwrite,
        ignore,
    })
}

fn what_of(alloc: Global, asked: &str) -> Result<What, Fail> {
    match asked.strip_prefix("edit ") {
        Some(words) => edits_of(alloc, words),
        None => Ok(What::Resource(resource_of(alloc, asked)?)),
    }
}

/// An operation. A skipped one has a `?` in front.
fn operation_of(alloc: Global, asked: &str) -> Result<Operation, Fail> {
    let skipped = asked.starts_with('?');
    Ok(Operation {
        what: what_of(alloc, asked.trim_start_matches('?'))?,
        skipped,
    })
}

/// Operations, cut at `;`.
fn operations_of(alloc: Global, asked: &str) -> Result<Operations, Fail> {
    let mut operations = Vec::new(alloc);
    for part in asked.split(';') {
        let part = part.trim();
        if !part.is_empty() {
            operations.push(operation_of(alloc, part)?)?;
        }
    }
    Ok(Items::new(operations))
}

/// The edit of these operations, with the failure kind and the encoding that the words name.
pub fn edit_of(alloc: Global, words: &str, asked: &str) -> Result<Edit, Fail> {
    Ok(Edit {
        label: Label::new(String::new(alloc)),
        failure: kind_of(words),
        encoding: encoding_of(words),
        operations: operations_of(alloc, asked)?,
    })
}

/// The history of an empty tree.
pub fn fresh(alloc: Global, limits: Limits) -> Result<History, Fail> {
    let Ok(stacks) = Stacks::from_elements(alloc, Elements::new(Vec::new(alloc)), 1, 0) else {
        return Err(Fail::new("no stacks"));
    };
    let versions = Versions::new(alloc);
    let tree = Tree::new(alloc);
    if !are_within_standard(&limits) {
        return Err(Fail::new("limits"));
    }
    match limit_hit(&limits, &tree) {
        Some(_) => Err(Fail::new("limits")),
        None => Ok(History::new(alloc, stacks, versions, tree, limits)),
    }
}

/// Does what the command asks, and says what the answer is.
pub fn give(alloc: Global, history: &mut History, command: &Command) -> Result<Answer, Memory> {
    let Planned {
        plan,
        locks,
        answer,
    } = history.plan(alloc, command)?;
    if !plan.effects.is_empty() {
        history.reserve(alloc, &plan)?;
        history.commit(plan, locks);
    } else if plan.changes.is_empty() {
        history.commit(plan, locks);
    }
    Ok(answer)
}
