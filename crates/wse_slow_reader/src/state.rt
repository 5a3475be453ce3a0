// The state of a store as plain lists.
use std::marker::Model;
use wse_element::Element;
use wse_plain::{Files, Numbers};

/// What a store holds: the files, the versions, the records of the history in order of making, the next free id, and how many
/// commands were recorded. Contracts see the state, in which nobody holds a path.
#[derive(Drop)]
pub struct PlainState {
    pub files: Files,
    pub versions: Numbers,
    pub records: Vec<Element>,
    pub next_id: u64,
    pub serial: u64,
}

impl Model for PlainState {
    ghost use Rattle.std.specs.Prelude.{[]};
    ghost use Rattle.wse_element.specs.State.{State};

    ghost Value = { State };

    ghost view = { λ a. record {
      files = a.files.items;
      versions = a.versions.items;
      records = a.records.items;
      next_id = a.next_id;
      serial = a.serial;
      locks = [];
    } };
}
