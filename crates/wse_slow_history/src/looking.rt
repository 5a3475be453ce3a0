// What is known of a path.
ghost use Rattle.std.specs.Prelude.{◌≡◌, length, option_map, IfOk};
ghost use Rattle.std.specs.Option.{option_copied, option_and_then};
ghost use Rattle.wse_history.specs.Looking.{text_in, look_outcome};
ghost use Rattle.wse_slow_history.specs.Slow.{state_of, outcome_of};

use crate::outcome::{SlowOutcome, stays};
use crate::state::SlowState;
use std::alloc::Global;
use wse_element::Element;
use wse_history::Answer;
use wse_path::{Bytes, Memory, RelPath, Text};
use wse_plain::{closest_future, closest_past, value_at, version_of};
use wse_text::as_text;

/// The bytes as a text, where they are UTF-8.
fn text_in(alloc: Global, bytes: &[u8]) -> Result<Option<Text>, Memory>
    ensures { IfOk result (λ text. text ≡ text_in bytes.now) }
{
    match as_text(bytes) {
        Ok(text) => Ok(Some(Text::new(String::from_str(alloc, text)?))),
        Err(_) => Ok(None),
    }
}

fn text_of(alloc: Global, content: Option<&Bytes>) -> Result<Option<Text>, Memory>
    ensures { IfOk result (λ text. text ≡ option_and_then text_in (option_copied content.entry)) }
{
    match content {
        Some(bytes) => text_in(alloc, bytes.as_slice()),
        None => Ok(None),
    }
}

fn len_of(content: Option<&Bytes>) -> Option<u64>
    ensures { result ≡ option_map length (option_copied content.entry) }
{
    match content {
        Some(bytes) => Some(bytes.len() as u64),
        None => None,
    }
}

fn id_of(element: Option<&Element>) -> Option<u64>
    ensures { result ≡ option_map (λ r. r.id) (option_copied element.entry) }
{
    match element {
        Some(element) => Some(element.id()),
        None => None,
    }
}

/// What is known of the path. Nothing changes.
pub(crate) fn look_outcome(
    alloc: Global,
    state: &SlowState,
    path: &RelPath,
) -> Result<SlowOutcome, Memory>
    ensures { IfOk result (λ o. outcome_of o ≡ look_outcome (state_of state.now) path.now) }
{
    let content = value_at(state.files.as_slice(), path);
    let text = text_of(alloc, content)?;
    Ok(stays(
        alloc,
        Answer::Look {
            bytes: len_of(content),
            text,
            version: version_of(state.versions.as_slice(), path),
            past: id_of(closest_past(state.records.as_slice(), path)),
            future: id_of(closest_future(state.records.as_slice(), path)),
            holder: state.locks.holder(path),
        },
    ))
}
