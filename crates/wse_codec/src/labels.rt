// Reading labels.
ghost use Rattle.std.specs.Prelude.{◌≡◌, IfOk};
ghost use Rattle.wse_path.specs.Label.{IsLabel};
ghost use Rattle.wse_codec.specs.Reading.{label_at};
ghost use Rattle.wse_codec.specs.Gives.{Gives, text_in};

use crate::fields::{take_run, take_u16};
use crate::unread::Unread;
use std::alloc::Global;
use wse_path::{Label, Memory};

/// The label with these bytes, where they are a text.
fn label_of(alloc: Global, run: &[u8]) -> Result<Option<Label>, Memory>
    requires { IsLabel run.now }
    ensures { IfOk result (λ label. label ≡ text_in run.now) }
{
    match str::from_utf8(run) {
        Ok(text) => Ok(Some(Label::new(String::from_str(alloc, text)?))),
        Err(_) => Ok(None),
    }
}

/// A label. One that is too long is refused at its length, and one that is no text at its bytes.
#[tactic(auto, unfolding(crate::specs::Reading::label_at))]
pub(crate) fn take_label(alloc: Global, bytes: &[u8]) -> Result<(Label, &[u8]), Unread>
    ensures { Gives (λ x. (x.0, x.1.now)) result (label_at bytes.now) }
{
    let (len, behind) = take_u16(bytes)?;
    let len = len as usize;
    if len > Label::MAX {
        return Err(Unread::Wrong { left: bytes.len() });
    }
    let (run, rest) = take_run(len, behind)?;
    let Some(label) = label_of(alloc, run)? else {
        return Err(Unread::Wrong { left: behind.len() });
    };
    Ok((label, rest))
}
