// What a script works on: a disk, or a store that is open over one.
use std::alloc::Global;
use wse_disk::MemDisk;
use wse_path::Tree;
use wse_quiet_disk::QuietDisk;
use wse_store::StoreServer;

/// A store that is open, and how many lines it has answered.
pub struct Store {
    pub server: StoreServer<QuietDisk>,
    pub lines: u64,
}

impl Drop for Store {
    fn drop(self) {
        drop(self.into_disk());
    }
}

/// What a script works on.
#[derive(Drop)]
pub enum Stage {
    /// A disk that no store is open over.
    Stopped(QuietDisk),
    Open(Store),
}

/// A disk that holds the tree.
pub fn disk_over(alloc: Global, tree: Tree, fails: Vec<u64>) -> QuietDisk {
    QuietDisk::new(MemDisk::new(alloc, tree, fails))
}

impl Store {
    /// What answers its lines, and how many it has answered.
    pub fn into_parts(self) -> (StoreServer<QuietDisk>, u64) {
        let Store { server, lines } = self;
        (server, lines)
    }

    /// Closes the store.
    pub fn into_disk(self) -> QuietDisk {
        let (server, _) = self.into_parts();
        let StoreServer { engine, root } = server;
        drop(root);
        engine.into_disk()
    }
}

impl Stage {
    /// The disk.
    pub fn disk(&self) -> &QuietDisk {
        match self {
            Stage::Stopped(disk) => disk,
            Stage::Open(store) => store.server.engine.disk(),
        }
    }

    /// The disk, with no store open over it.
    pub fn into_disk(self) -> QuietDisk {
        match self {
            Stage::Stopped(disk) => disk,
            Stage::Open(store) => store.into_disk(),
        }
    }
}
