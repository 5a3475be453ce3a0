// The areas of a disk beside its files.

/// A list of bytes that a disk keeps beside its files.
#[derive(Debug, Clone, Copy, PartialEq, Eq)]
pub enum Area {
    /// The byte that says which journal holds.
    Switch,
    /// The first journal.
    LogA,
    /// The second journal.
    LogB,
}
