// Why an operation of an edit fails.
use wse_path::{Files, Hit};
use wse_resource::OpRefused;

/// Why an operation of an edit fails. Of several reasons the first in the order of this list counts, where a version
/// comes before what is wrong with the text, and locks and limits come last: this project's own rule.
#[derive(Drop)]
pub enum Reason {
    /// What stands at the paths refuses it. Never `OpRefused::Memory`.
    Op(OpRefused),
    /// The bytes aren't UTF-8. `at` is the length of their longest prefix that is.
    NotText { at: usize },
    /// The first edit of which a position lies inside a code point, and where that starts, in bytes. Edits are numbered
    /// as they were given.
    Inside { edit: u64, char_start: usize },
    /// The first two edits that overlap.
    Overlap { first: u64, second: u64 },
    /// The file's version from before the whole edit isn't the one that is wanted.
    Version { have: u32, want: i64 },
    /// Another participant holds these of the paths that would change, in path order.
    Locked { files: Files },
    /// The tree would pass a limit.
    Limit(Hit),
}
