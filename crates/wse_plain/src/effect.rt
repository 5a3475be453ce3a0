// What one effect does to a list of records.
ghost use Rattle.std.specs.Prelude.{◌≡◌, ◌++◌, ◌∷◌, [], IfOk};
ghost use Rattle.wse_element.specs.Effects.{records_after, ids_taken};
ghost use Rattle.wse_plain.specs.Ids.{HasLowIds};

use crate::losses::{invalidated, lost_for};
use crate::moves::{marked, split};
use crate::stacks::{copies, record_of};
use std::alloc::Global;
use wse_element::{Effect, Element};
use wse_path::{Duplicate, Memory};

fn pushed(alloc: Global, records: &[Element], element: &Element) -> Result<Vec<Element>, Memory>
    ensures { IfOk result (λ all. all.items ≡ records.now ++ element.now ∷ []) }
{
    let mut all = copies(alloc, records)?;
    all.push(element.duplicate(alloc)?)?;
    Ok(all)
}

/// The records after the effect, whether or not it may come. This project's own rule.
pub fn records_after(
    alloc: Global,
    records: &[Element],
    effect: &Effect,
) -> Result<Vec<Element>, Memory>
    requires { HasLowIds effect.now }
    ensures { IfOk result (λ all. all.items ≡ records_after records.now effect.now) }
{
    match effect {
        Effect::Push(element) => pushed(alloc, records, element),
        Effect::MoveBack { id } => marked(alloc, records, *id, false),
        Effect::MoveForward { id } => marked(alloc, records, *id, true),
        Effect::Split { id, first } => split(alloc, records, *id, *first),
        Effect::Drop { path, reason } => lost_for(alloc, records, path, *reason),
        Effect::Invalidate { path } => invalidated(alloc, records, path),
        Effect::Bump { .. } | Effect::Set { .. } => copies(alloc, records),
    }
}

/// How many ids the effect takes. Takes no memory.
pub fn ids_taken(records: &[Element], effect: &Effect) -> u64
    ensures { result ≡ ids_taken records.now effect.now }
{
    match effect {
        Effect::Push(_) => 1,
        Effect::Split { id, .. } => match record_of(records, *id) {
            Some(element) => element.live_count() as u64,
            None => 0,
        },
        _ => 0,
    }
}
