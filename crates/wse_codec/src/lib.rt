// Records and states of the journal as bytes.
#![tactic(auto)]

mod contents;
mod effects;
mod elements;
mod fields;
mod labels;
pub mod laws;
mod parts;
mod paths;
mod put_effects;
mod put_elements;
mod put_fields;
mod put_versions;
mod records;
mod refused;
mod snapshot;
mod states;
mod unread;
mod versions;

pub use records::{read_record, write_record};
pub use refused::RecordRefused;
pub use snapshot::Snapshot;
pub use states::{read_state, write_state};
