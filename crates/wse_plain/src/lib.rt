// A history as plain lists: each definition by a pass over whole lists.
#![tactic(auto)]

mod applicable;
mod bounds;
mod contents;
mod effect;
mod entries;
mod linked;
mod losses;
mod moves;
mod stacks;
mod versions;

pub use applicable::{
    follows_past, has_future, may_come, may_go_back, may_go_forward, may_lose, may_split, sets_tree,
};
pub use bounds::{is_bounded, weight};
pub use contents::{Contents, contents_set};
pub use effect::{ids_taken, records_after};
pub use entries::{Files, put, set_file, set_files, value_at, without};
pub use linked::is_linked;
pub use stacks::{
    closest_future, closest_past, copies, future, is_live_at, is_valid_at, live_at, past, record_of,
};
pub use versions::{
    Numbers, are_versions_bounded, bumped, is_known_bounded, known, may_bump, version_of,
    versions_after,
};
