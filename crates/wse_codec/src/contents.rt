// Reading contents.
ghost use Rattle.wse_codec.specs.Reading.{content_at};
ghost use Rattle.wse_codec.specs.Gives.{Gives};

use crate::fields::{take_counted, take_flag};
use crate::unread::Unread;
use std::alloc::Global;
use wse_path::Bytes;

/// Content that may be absent.
#[tactic(auto, unfolding(crate::specs::Reading::content_at, crate::specs::Reading::content_behind))]
pub(crate) fn take_content(alloc: Global, bytes: &[u8]) -> Result<(Option<Bytes>, &[u8]), Unread>
    ensures { Gives (λ x. (x.0, x.1.now)) result (content_at bytes.now) }
{
    let (is_there, rest) = take_flag(bytes)?;
    if !is_there {
        return Ok((None, rest));
    }
    let (run, rest) = take_counted(rest)?;
    Ok((Some(Bytes::new(Vec::from_slice(alloc, run)?)), rest))
}
