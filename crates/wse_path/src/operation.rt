// What an edit asks of the folder tree.
use crate::items::Duplicate;
use crate::memory::Memory;
use crate::path::RelPath;
use std::alloc::Global;

/// A resource operation (LSP 3.17, "Resource changes": CreateFile, RenameFile, DeleteFile). `ignore` is
/// `ignoreIfExists`, and of a delete `ignoreIfNotExists`.
#[derive(Debug, Drop)]
pub enum ResourceOp {
    Create {
        path: RelPath,
        overwrite: bool,
        ignore: bool,
    },
    Rename {
        from: RelPath,
        to: RelPath,
        overwrite: bool,
        ignore: bool,
    },
    Delete {
        path: RelPath,
        recursive: bool,
        ignore: bool,
    },
}

impl Duplicate for ResourceOp {
    fn duplicate(&self, alloc: Global) -> Result<ResourceOp, Memory> {
        match self {
            ResourceOp::Create {
                path,
                overwrite,
                ignore,
            } => Ok(ResourceOp::Create {
                path: path.duplicate(alloc)?,
                overwrite: *overwrite,
                ignore: *ignore,
            }),
            ResourceOp::Rename {
                from,
                to,
                overwrite,
                ignore,
            } => Ok(ResourceOp::Rename {
                from: from.duplicate(alloc)?,
                to: to.duplicate(alloc)?,
                overwrite: *overwrite,
                ignore: *ignore,
            }),
            ResourceOp::Delete {
                path,
                recursive,
                ignore,
            } => Ok(ResourceOp::Delete {
                path: path.duplicate(alloc)?,
                recursive: *recursive,
                ignore: *ignore,
            }),
        }
    }
}
