// What a list of records gives.
ghost use Rattle.std.specs.Prelude.{◌≡◌, ◌+◌, ◌<◌, ◌^◌, ◌∷◌, List, ℕ, true, IfOk};
ghost use Rattle.wse_element.specs.State.{stacks_of};
ghost use Rattle.wse_element.specs.Numbers.{is_bounded};
ghost use Rattle.wse_log.specs.Grammar.{Reads};
ghost use Rattle.wse_slow_reader.specs.Split.{end_of, place_of, length_of};
ghost use Rattle.wse_slow_reader.specs.Given.{IsGiven, IsGivenBehind};

use crate::first::first_left;
use crate::given::Given;
use crate::left::Left;
use crate::next::next_left;
use crate::piece::Ending;
use crate::record::RawRecord;
use std::alloc::Global;
use wse_path::Memory;

// The place of the end.
fn place_of(ending: Ending) -> u64
    ensures { result ≡ place_of ending }
{
    match ending {
        Ending::Closed { gate } => gate as u64,
        Ending::Broken { at } => at as u64,
    }
}

// What these records and this end give behind what is left so far, where the next gate stands at that place.
fn replay_on(
    alloc: Global,
    begun: Left,
    place: u64,
    records: &[RawRecord],
    ending: Ending,
) -> Result<Given, Memory>
    requires bounded { is_bounded (stacks_of begun.kept) ≡ true }
    requires room { place + length_of records.now < 2 ^ 64 }
    ensures { IfOk result (IsGivenBehind begun place records.now (end_of ending)) }
{
    let mut left = begun;
    let mut gate = place;
    for raw in records {
        let body = raw.body();
        match next_left(alloc, left, gate, body)? {
            Given::Leaves(next) => left = next,
            Given::NoStore { at } => return Ok(Given::NoStore { at }),
        }
        gate += 6 + body.len() as u64;
    }
    match ending {
        Ending::Closed { gate: _ } => Ok(Given::Leaves(left)),
        Ending::Broken { at } => Ok(Given::NoStore { at: at as u64 }),
    }
}

// What a first record gives, and those behind it.
fn replay_from(
    alloc: Global,
    first: &RawRecord,
    others: &[RawRecord],
    ending: Ending,
) -> Result<Given, Memory>
    requires { 8 + length_of (first.now ∷ others.now) < 2 ^ 64 }
    ensures { IfOk result (IsGiven (first.now ∷ others.now) (end_of ending)) }
{
    let body = first.body();
    match first_left(alloc, body)? {
        Given::Leaves(left) => {
            let gate = 14 + body.len() as u64;
            replay_on(alloc, left, gate, others, ending)
        }
        Given::NoStore { at } => Ok(Given::NoStore { at }),
    }
}

/// What the records give, and their end: what all of them leave, or the first place where they are no store's. This project's
/// own format.
pub(crate) fn replay(alloc: Global, records: &[RawRecord], ending: Ending) -> Result<Given, Memory>
    requires reads { (area : List ℕ) × Reads area records.now (end_of ending) }
    requires room { 8 + length_of records.now < 2 ^ 64 }
    ensures { IfOk result (IsGiven records.now (end_of ending)) }
{
    match records {
        [] => Ok(Given::NoStore {
            at: place_of(ending),
        }),
        [first, others @ ..] => replay_from(alloc, first, others, ending),
    }
}
