// Edits of a folder tree.
use crate::items::{Duplicate, Items};
use crate::label::Label;
use crate::memory::Memory;
use crate::operation::ResourceOp;
use crate::path::RelPath;
use crate::position::{Encoding, TextEdit};
use std::alloc::Global;

/// Edits of one text, in the order in which they were given.
pub type Edits = Items<TextEdit>;

/// What an operation of an edit does (LSP 3.17, "WorkspaceEdit").
#[derive(Drop)]
pub enum What {
    /// Edits of a file's text (LSP 3.17, "TextDocumentEdit"). A version is the one that the file must have.
    Text {
        path: RelPath,
        version: Option<i64>,
        edits: Edits,
    },
    /// A resource operation.
    Resource(ResourceOp),
}

/// An operation of an edit. A skipped one does nothing: it waits for a confirmation.
#[derive(Drop)]
pub struct Operation {
    pub what: What,
    pub skipped: bool,
}

impl Duplicate for What {
    fn duplicate(&self, alloc: Global) -> Result<What, Memory> {
        match self {
            What::Text {
                path,
                version,
                edits,
            } => Ok(What::Text {
                path: path.duplicate(alloc)?,
                version: *version,
                edits: edits.duplicate(alloc)?,
            }),
            What::Resource(op) => Ok(What::Resource(op.duplicate(alloc)?)),
        }
    }
}

impl Duplicate for Operation {
    fn duplicate(&self, alloc: Global) -> Result<Operation, Memory> {
        Ok(Operation {
            what: self.what.duplicate(alloc)?,
            skipped: self.skipped,
        })
    }
}

/// Operations, each on what the ones before it leave.
pub type Operations = Items<Operation>;

/// What becomes of an edit of which an operation fails (LSP 3.17, "FailureHandlingKind").
#[derive(Clone, Copy, PartialEq, Eq)]
pub enum FailureKind {
    /// What the operations before it did stays.
    Abort,
    /// Nothing stays.
    Transactional,
    /// Nothing stays where all operations are edits of texts; else as for `Abort`.
    TextOnlyTransactional,
    /// What the operations before it did is undone.
    Undo,
}

/// An edit of the folder tree, with all that says how it is to be performed.
#[derive(Drop)]
pub struct Edit {
    pub label: Label,
    pub failure: FailureKind,
    /// What the characters of all its positions count.
    pub encoding: Encoding,
    pub operations: Operations,
}

impl Duplicate for Edit {
    fn duplicate(&self, alloc: Global) -> Result<Edit, Memory> {
        Ok(Edit {
            label: self.label.duplicate(alloc)?,
            failure: self.failure,
            encoding: self.encoding,
            operations: self.operations.duplicate(alloc)?,
        })
    }
}
