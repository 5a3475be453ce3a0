// Numbers that nothing may pass.
ghost use Rattle.std.specs.Prelude.{◌≡◌};
ghost use Rattle.wse_path.specs.Limits.{standard};

/// What a store may hold. A number passes a limit when it is greater. This project's own rule.
#[derive(Debug, Clone, Copy, PartialEq, Eq)]
pub struct Limits {
    /// Files of the tree.
    pub files: u64,
    /// Bytes of one file.
    pub file_bytes: u64,
    /// Bytes of all files.
    pub tree_bytes: u64,
    /// Over all paths with a version: 32, and the bytes of the path's text.
    pub known: u64,
    /// Over all that the history holds of single files: 256, and the bytes of the label, of the path's text, and of the old
    /// and the new content.
    pub weight: u64,
    /// Commands that the store recorded since it was made.
    pub serial: u64,
}

impl Limits {
    /// The limits of the program.
    pub fn standard() -> Limits
        ensures { result ≡ standard }
    {
        Limits {
            files: 65_536,
            file_bytes: 16_777_216,
            tree_bytes: 268_435_456,
            known: 536_870_912,
            weight: 536_870_912,
            serial: 1_073_741_823,
        }
    }
}

/// One of the limits.
#[derive(Clone, Copy, PartialEq, Eq)]
pub enum Which {
    Files,
    FileBytes,
    TreeBytes,
    Known,
    Weight,
    Serial,
}

/// A limit that would be passed, and the number that would pass it.
#[derive(Clone, Copy, PartialEq, Eq)]
pub struct Hit {
    pub which: Which,
    pub would_be: u64,
}
