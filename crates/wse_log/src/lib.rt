// The journal of a store: what is written of it, and reading it piece by piece.
#![tactic(auto)]

mod format;
mod gate;
mod header;
pub mod laws;
mod piece;
mod reads;
mod record;
mod spelled;
mod step;

pub use format::{CLOSED_GATE, HEADER, OPEN_GATE, SETTLED, UNSETTLED};
pub use piece::scan;
pub use spelled::{fresh_journal, staged_record};
pub use step::{ScanFault, Step};
