// Edits of a file's text, as changes that aren't made yet.
ghost use Rattle.std.specs.Prelude.{◌≡◌, None, Some, IfOk, IfErr, OnOk, length};
ghost use Rattle.std.specs.Option.{option_or, unwrap_or};
ghost use Rattle.wse_splice.specs.Splice.{Fits, spliced};
ghost use Rattle.wse_edits.specs.Edited.{edited};
ghost use Rattle.wse_edits.specs.Refusal.{refusal};
ghost use Rattle.wse_apply.specs.Next.{version_refusal, not_text, edits_reason, text_next};
ghost use Rattle.wse_apply.specs.Draft.{IsDraftOf, IsStopOf, TellsReason, change_of};

use crate::reason::Reason;
use crate::setting::Setting;
use crate::stop::Stop;
use crate::unchanged::all_leave;
use std::alloc::Global;
use wse_edits::{EditsRefused, resolve};
use wse_overlay::{Contents, Overlay};
use wse_path::{
    Bytes, Change, Changes, Duplicate, Encoding, Items, Memory, RelPath, TextEdit, Tree, copy_bytes,
};
use wse_resource::OpRefused;
use wse_splice::{Splices, apply};
use wse_text::as_text;

/// Refuses another version than the one that is wanted.
pub fn check_version(want: Option<i64>, have: u32) -> Result<(), Stop>
    ensures ok { OnOk result (version_refusal want have ≡ None) }
    ensures refused { IfErr result (TellsReason (version_refusal want have)) }
{
    match want {
        Some(want) => {
            if want == i64::from(have) {
                return Ok(());
            }
            Err(Stop::Refused(Reason::Version { have, want }))
        }
        None => Ok(()),
    }
}

/// A refusal of edits as a reason.
fn stop_of(why: EditsRefused) -> Stop
    ensures { TellsReason (edits_reason (Some why)) result }
{
    match why {
        EditsRefused::Inside { edit, char_start } => Stop::Refused(Reason::Inside {
            edit,
            char_start,
        }),
        EditsRefused::Overlap { first, second } => Stop::Refused(Reason::Overlap { first, second }),
        EditsRefused::Memory => Stop::Memory,
    }
}

/// The edits as splices.
pub fn splices_of(
    alloc: Global,
    text: &str,
    enc: Encoding,
    edits: &[TextEdit],
) -> Result<Splices, Stop>
    ensures fits { IfOk result (λ splices. Fits splices (length text.now)) }
    ensures text_after { IfOk result (λ splices. spliced text.now splices ≡ edited text.now enc edits.now) }
    ensures ok { OnOk result (edits_reason (refusal text.now enc edits.now) ≡ None) }
    ensures refused { IfErr result (TellsReason (edits_reason (refusal text.now enc edits.now))) }
{
    match resolve(alloc, text, enc, edits) {
        Ok(splices) => Ok(splices),
        Err(why) => Err(stop_of(why)),
    }
}

/// The text after the edits, or None where they leave it.
fn edited(
    alloc: Global,
    bytes: &[u8],
    enc: Encoding,
    edits: &[TextEdit],
) -> Result<Option<Bytes>, Stop>
    ensures after { IfOk result (λ after. unwrap_or after bytes.now ≡ edited bytes.now enc edits.now) }
    ensures ok { OnOk result (option_or (not_text bytes.now) (edits_reason (refusal bytes.now enc edits.now)) ≡ None) }
    ensures refused { IfErr result (TellsReason (option_or (not_text bytes.now) (edits_reason (refusal bytes.now enc edits.now)))) }
{
    match as_text(bytes) {
        Ok(text) => edited_text(alloc, text, enc, edits),
        Err(why) => Err(Stop::Refused(Reason::NotText { at: why.at })),
    }
}

/// It is made only where some edit puts another text than stands there.
fn edited_text(
    alloc: Global,
    text: &str,
    enc: Encoding,
    edits: &[TextEdit],
) -> Result<Option<Bytes>, Stop>
    ensures after { IfOk result (λ after. unwrap_or after text.now ≡ edited text.now enc edits.now) }
    ensures ok { OnOk result (edits_reason (refusal text.now enc edits.now) ≡ None) }
    ensures refused { IfErr result (TellsReason (edits_reason (refusal text.now enc edits.now))) }
{
    let splices = splices_of(alloc, text, enc, edits)?;
    if all_leave(text.as_bytes(), splices.as_slice()) {
        return Ok(None);
    }
    let after = apply(alloc, text.as_bytes(), splices.as_slice())?;
    Ok(Some(after))
}

/// The change of a file's content, if it is one. None leaves it.
fn change_of(
    alloc: Global,
    path: &RelPath,
    before: &[u8],
    after: Option<Bytes>,
) -> Result<Changes, Memory>
    ensures { IfOk result (λ changes. changes ≡ change_of path.now before.now (unwrap_or after before.now)) }
{
    match after {
        Some(after) => change_to(alloc, path, before, after),
        None => Ok(Items::new(Vec::new(alloc))),
    }
}

fn change_to(alloc: Global, path: &RelPath, before: &[u8], after: Bytes) -> Result<Changes, Memory>
    ensures { IfOk result (λ changes. changes ≡ change_of path.now before.now after) }
{
    let mut changes = Vec::new(alloc);
    if before == after.as_slice() {
        return Ok(Items::new(changes));
    }
    let before = copy_bytes(alloc, before)?;
    changes.push(Change {
        path: path.duplicate(alloc)?,
        before: Some(before),
        after: Some(after),
    })?;
    Ok(Items::new(changes))
}

/// What the edits of the file's text change, unless something refuses them.
pub fn text_changes(
    alloc: Global,
    setting: &Setting<'_>,
    overlay: &Overlay<'_, Tree>,
    path: &RelPath,
    version: Option<i64>,
    edits: &[TextEdit],
) -> Result<Changes, Stop>
    ensures draft { IfOk result (IsDraftOf setting.now overlay.now.files (text_next setting.now overlay.now.files path.now version edits.now)) }
    ensures refused { IfErr result (IsStopOf (text_next setting.now overlay.now.files path.now version edits.now)) }
{
    if overlay.is_folder(alloc, path)? {
        return Err(Stop::Refused(Reason::Op(OpRefused::IsFolder)));
    }
    match overlay.get(path) {
        Some(bytes) => {
            let have = setting.version(path);
            check_version(version, have)?;
            let after = edited(alloc, bytes, setting.encoding(), edits)?;
            let changes = change_of(alloc, path, bytes, after)?;
            Ok(changes)
        }
        None => Err(Stop::Refused(Reason::Op(OpRefused::NotFound))),
    }
}
