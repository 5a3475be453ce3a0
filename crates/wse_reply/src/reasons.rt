// Why an edit failed, in words.
ghost use Rattle.std.specs.Prelude.{◌≡◌, IfOk, map, string_bytes};
ghost use Rattle.wse_path.specs.Path.{text_of};
ghost use Rattle.wse_text.specs.Words.{not_text_text};
ghost use Rattle.wse_edits.specs.Words.{refused_text};
ghost use Rattle.wse_reply.specs.Reasons.{version_text, locked_text, reason_text};

use crate::limits::limit_text;
use std::alloc::Global;
use wse_apply::Reason;
use wse_edits::EditsRefused;
use wse_path::{Memory, RelPath};
use wse_text::NotText;

fn edits_text(alloc: Global, why: EditsRefused) -> Result<String, Memory>
    ensures { IfOk result (λ text. string_bytes text ≡ refused_text why) }
{
    Ok(format!(in alloc; "{why}")?)
}

fn not_text_text(alloc: Global, why: NotText) -> Result<String, Memory>
    ensures { IfOk result (λ text. string_bytes text ≡ not_text_text why) }
{
    Ok(format!(in alloc; "{why}")?)
}

fn version_text(alloc: Global, have: u32, want: i64) -> Result<String, Memory>
    ensures { IfOk result (λ text. string_bytes text ≡ version_text have want) }
{
    Ok(format!(in alloc; "version is {have}, not {want}")?)
}

/// The paths' texts.
fn texts(alloc: Global, files: &[RelPath]) -> Result<Vec<String>, Memory>
    ensures { IfOk result (λ texts. map string_bytes texts.items ≡ map text_of files.now) }
{
    let mut texts = Vec::new(alloc);
    for file in files {
        texts.push(file.text(alloc)?.into_string())?;
    }
    Ok(texts)
}

fn locked_text(alloc: Global, files: &[RelPath]) -> Result<String, Memory>
    ensures { IfOk result (λ text. string_bytes text ≡ locked_text files.now) }
{
    let files = texts(alloc, files)?.join(alloc, ", ")?;
    Ok(format!(in alloc; "locked: {files}")?)
}

/// Why an edit failed, in words.
pub fn reason_text(alloc: Global, why: &Reason) -> Result<String, Memory>
    ensures { IfOk result (λ text. string_bytes text ≡ reason_text why.now) }
{
    match why {
        Reason::Op(why) => Ok(format!(in alloc; "{why}")?),
        Reason::NotText { at } => not_text_text(alloc, NotText { at: *at }),
        Reason::Inside { edit, char_start } => {
            let (edit, char_start) = (*edit, *char_start);
            edits_text(alloc, EditsRefused::Inside { edit, char_start })
        }
        Reason::Overlap { first, second } => {
            let (first, second) = (*first, *second);
            edits_text(alloc, EditsRefused::Overlap { first, second })
        }
        Reason::Version { have, want } => version_text(alloc, *have, *want),
        Reason::Locked { files } => locked_text(alloc, files.as_slice()),
        Reason::Limit(hit) => limit_text(alloc, *hit),
    }
}
