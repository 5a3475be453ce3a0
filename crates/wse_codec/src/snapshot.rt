// A state, as a journal begins with it.
use wse_element::Elements;
use wse_path::Bumps;

/// What a journal begins with: how many commands were recorded, the next free id, each path's version where it has one,
/// and the elements in order of making. This project's own rule.
#[derive(Drop)]
pub struct Snapshot {
    pub serial: u64,
    pub next_id: u64,
    pub versions: Bumps,
    pub elements: Elements,
}
