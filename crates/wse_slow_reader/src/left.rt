// What the records of a journal leave.
use std::marker::Model;
use wse_element::Element;
use wse_plain::{Contents, Numbers};

/// What the records so far leave of what a journal keeps, and what the last of them sets in the tree.
#[derive(Drop)]
pub(crate) struct Left {
    pub(crate) versions: Numbers,
    pub(crate) records: Vec<Element>,
    pub(crate) next_id: u64,
    pub(crate) serial: u64,
    pub(crate) sets: Contents,
}

impl Model for Left {
    ghost use Rattle.wse_txn.specs.Replay.{Replayed};

    ghost Value = { Replayed };

    ghost view = { λ a. record {
      kept = record { versions = a.versions.items; records = a.records.items; next_id = a.next_id; serial = a.serial };
      sets = a.sets.items;
    } };
}
