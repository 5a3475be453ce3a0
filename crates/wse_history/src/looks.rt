// What is known of a path.
ghost use Rattle.std.specs.Prelude.{◌≡◌, length, option_map, IfOk};
ghost use Rattle.std.specs.Option.{option_copied, option_and_then};
ghost use Rattle.wse_history.specs.Looking.{text_in, look_outcome};
ghost use Rattle.wse_history.specs.Planning.{PlansAsOutcome, MayRecordIfAny};

use crate::answer::Answer;
use crate::history::History;
use crate::planned::Planned;
use crate::plans::stays;
use std::alloc::Global;
use wse_path::{Memory, RelPath, Text};
use wse_text::as_text;

/// The bytes as a text, where they are UTF-8.
fn text_in(alloc: Global, bytes: &[u8]) -> Result<Option<Text>, Memory>
    ensures { IfOk result (λ text. text ≡ text_in bytes.now) }
{
    match as_text(bytes) {
        Ok(text) => Ok(Some(Text::new(String::from_str(alloc, text)?))),
        Err(_) => Ok(None),
    }
}

fn text_of(alloc: Global, content: Option<&[u8]>) -> Result<Option<Text>, Memory>
    ensures { IfOk result (λ text. text ≡ option_and_then text_in (option_copied content.entry)) }
{
    match content {
        Some(bytes) => text_in(alloc, bytes),
        None => Ok(None),
    }
}

fn len_of(content: Option<&[u8]>) -> Option<u64>
    ensures { result ≡ option_map length (option_copied content.entry) }
{
    match content {
        Some(bytes) => Some(bytes.len() as u64),
        None => None,
    }
}

/// What is known of the path. Nothing changes.
pub(crate) fn plan_look(alloc: Global, history: &History, path: &RelPath) -> Result<Planned, Memory>
    ensures planned { IfOk result (PlansAsOutcome history.now.state (look_outcome history.now.state path.now)) }
    ensures may { IfOk result (λ planned. MayRecordIfAny history.now.limits history.now.state planned.plan) }
{
    let content = history.tree().get(path);
    let bytes = len_of(content);
    let text = text_of(alloc, content)?;
    Ok(stays(
        alloc,
        Answer::Look {
            bytes,
            text,
            version: history.versions().get(path),
            past: history.stacks().closest_past(path),
            future: history.stacks().closest_future(path),
            holder: history.locks().holder(path),
        },
    ))
}
