// What a disk holds.
ghost use Rattle.std.specs.Prelude.{◌≡◌};
ghost use Rattle.wse_txn.specs.Stands.{chosen_by, journal_of};

use std::marker::Model;
use wse_path::{Bytes, RelPath};

/// The files of a disk, in path order, and the bytes of its three areas. Contracts see what is read of such a disk.
#[derive(Drop)]
pub struct Image {
    files: Vec<(RelPath, Bytes)>,
    switch: Vec<u8>,
    log_a: Vec<u8>,
    log_b: Vec<u8>,
}

impl Model for Image {
    ghost use Rattle.wse_disk.specs.Reading.{Reading};

    ghost Value = { Reading };

    ghost view = { λ a. record { files = a.files.items; switch = a.switch.items; log_a = a.log_a.items; log_b = a.log_b.items } };
}

impl Image {
    /// The image with these files and areas. Takes no memory.
    pub fn new(
        files: Vec<(RelPath, Bytes)>,
        switch: Vec<u8>,
        log_a: Vec<u8>,
        log_b: Vec<u8>,
    ) -> Image
        ensures { result ≡ record { files = files.items; switch = switch.items; log_a = log_a.items; log_b = log_b.items } }
    {
        Image {
            files,
            switch,
            log_a,
            log_b,
        }
    }

    /// The files.
    pub(crate) fn files(&self) -> &[(RelPath, Bytes)]
        ensures { result.now ≡ self.now.files }
    {
        &self.files
    }

    /// The journal that the switch chooses: the first one by an even first byte or none, else the second. This project's own
    /// format.
    pub(crate) fn journal(&self) -> &[u8]
        ensures { result.now ≡ journal_of self.now }
    {
        match self.switch.first() {
            Some(byte) if byte % 2 == 1 => &self.log_b,
            _ => &self.log_a,
        }
    }
}
