// What the records of a journal give.
use crate::left::Left;

/// What all of them leave, or the first place at which the journal is no store.
#[derive(Drop)]
pub(crate) enum Given {
    Leaves(Left),
    NoStore { at: u64 },
}
