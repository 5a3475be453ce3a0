// Commands and refusals as texts.
use std::alloc::Global;
use std::fmt::Write;
use std::test::Fail;
use wse_json::Shape;
use wse_path::{
    Choice, Command, Direction, Edit, Encoding, FailureKind, Files, Operation, RelPath, ResourceOp,
    TextEdit, What,
};

/// The kind of the operation, its paths, and its flags in the order of the fields.
fn shown_resource(alloc: Global, op: &ResourceOp) -> Result<String, Fail> {
    match op {
        ResourceOp::Create {
            path,
            overwrite,
            ignore,
        } => {
            let path = path.text(alloc)?;
            Ok(format!(in alloc; "create {} {overwrite} {ignore}", path.as_str())?)
        }
        ResourceOp::Rename {
            from,
            to,
            overwrite,
            ignore,
        } => {
            let from = from.text(alloc)?;
            let to = to.text(alloc)?;
            Ok(format!(in alloc;
                "rename {} {} {overwrite} {ignore}",
                from.as_str(),
                to.as_str()
            )?)
        }
        ResourceOp::Delete {
            path,
            recursive,
            ignore,
        } => {
            let path = path.text(alloc)?;
            Ok(format!(in alloc; "delete {} {recursive} {ignore}", path.as_str())?)
        }
    }
}

fn push_text_edit(out: &mut String, edit: &TextEdit) -> Result<(), Fail> {
    let start = edit.start;
    let end = edit.end;
    out.push_str(if edit.skipped { " [skipped " } else { " [" })?;
    write!(out, "{}:{}-", start.line, start.character)?;
    write!(out, "{}:{} ", end.line, end.character)?;
    write!(out, "'{}']", edit.new_text.as_str())?;
    Ok(())
}

fn push_version(out: &mut String, version: Option<i64>) -> Result<(), Fail> {
    match version {
        Some(version) => write!(out, " {version}")?,
        None => out.push_str(" any")?,
    }
    Ok(())
}

fn push_operation(alloc: Global, out: &mut String, operation: &Operation) -> Result<(), Fail> {
    out.push_str(if operation.skipped {
        "; skipped "
    } else {
        "; "
    })?;
    match &operation.what {
        What::Resource(op) => out.push_str(shown_resource(alloc, op)?.as_str())?,
        What::Text {
            path,
            version,
            edits,
        } => {
            write!(out, "text {}", path.text(alloc)?.as_str())?;
            push_version(out, *version)?;
            for edit in edits.as_slice() {
                push_text_edit(out, edit)?;
            }
        }
    }
    Ok(())
}

fn failure_name(failure: FailureKind) -> &'static str {
    match failure {
        FailureKind::Abort => "abort",
        FailureKind::Transactional => "transactional",
        FailureKind::TextOnlyTransactional => "text only transactional",
        FailureKind::Undo => "undo",
    }
}

fn encoding_name(encoding: Encoding) -> &'static str {
    match encoding {
        Encoding::Utf8 => "8",
        Encoding::Utf16 => "16",
        Encoding::Utf32 => "32",
    }
}

fn shown_edit(alloc: Global, by: u32, edit: &Edit) -> Result<String, Fail> {
    let label = edit.label.as_str();
    let failure = failure_name(edit.failure);
    let encoding = encoding_name(edit.encoding);
    let mut out = format!(in alloc; "{by} edit '{label}' {failure} {encoding}")?;
    for operation in edit.operations.as_slice() {
        push_operation(alloc, &mut out, operation)?;
    }
    Ok(out)
}

fn shown_files(alloc: Global, by: u32, what: &str, files: &Files) -> Result<String, Fail> {
    let mut out = format!(in alloc; "{by} {what}")?;
    for file in files.as_slice() {
        write!(out, " {}", file.text(alloc)?.as_str())?;
    }
    Ok(out)
}

fn choice_name(choice: &Choice) -> &'static str {
    match choice {
        Choice::All => "all",
        Choice::This => "this",
        Choice::Cancel => "cancel",
        Choice::Turned { files: _ } => "turned",
    }
}

fn shown_move(
    alloc: Global,
    direction: Direction,
    path: &RelPath,
    choice: &Choice,
) -> Result<String, Fail> {
    let way = match direction {
        Direction::Back => "undo",
        Direction::Forward => "redo",
    };
    let path = path.text(alloc)?;
    let choice = choice_name(choice);
    Ok(format!(in alloc; "{way} {} {choice}", path.as_str())?)
}

fn shown_path(alloc: Global, what: &str, path: &RelPath) -> Result<String, Fail> {
    let path = path.text(alloc)?;
    Ok(format!(in alloc; "{what} {}", path.as_str())?)
}

fn shown_outside(alloc: Global, path: &RelPath, content: Option<&[u8]>) -> Result<String, Fail> {
    let path = path.text(alloc)?;
    match content {
        Some(bytes) => {
            let text = str::from_utf8(bytes)?;
            Ok(format!(in alloc; "outside {} '{text}'", path.as_str())?)
        }
        None => Ok(format!(in alloc; "outside {} absent", path.as_str())?),
    }
}

fn shown_command(alloc: Global, command: &Command) -> Result<String, Fail> {
    match command {
        Command::Edit { by, edit } => shown_edit(alloc, *by, edit),
        Command::Move {
            by,
            direction,
            path,
            choice,
        } => {
            let moved = shown_move(alloc, *direction, path, choice)?;
            Ok(format!(in alloc; "{by} {moved}")?)
        }
        Command::Lock { by, files } => shown_files(alloc, *by, "lock", files),
        Command::Unlock { by, files } => shown_files(alloc, *by, "unlock", files),
        Command::Leave { by } => Ok(format!(in alloc; "{by} leave")?),
        Command::Outside { path, content } => {
            shown_outside(alloc, path, content.as_ref().map(|bytes| bytes.as_slice()))
        }
        Command::Forget { path } => shown_path(alloc, "forget", path),
        Command::Look { path } => shown_path(alloc, "look", path),
    }
}

fn shown_shape(alloc: Global, why: &Shape) -> Result<String, Fail> {
    match why {
        Shape::NotJson => Ok(String::from_str(alloc, "not JSON")?),
        Shape::Field { pointer } => Ok(format!(in alloc; "field '{}'", pointer.as_str())?),
        Shape::Uri { pointer, why } => Ok(format!(in alloc; "uri '{}' {why:?}", pointer.as_str())?),
        Shape::Annotation { id } => Ok(format!(in alloc; "annotation '{}'", id.as_str())?),
        Shape::Memory => Ok(String::from_str(alloc, "memory")?),
    }
}

/// The command, or why there is none.
pub fn shown(alloc: Global, read: &Result<Command, Shape>) -> Result<String, Fail> {
    match read {
        Ok(command) => shown_command(alloc, command),
        Err(why) => shown_shape(alloc, why),
    }
}
