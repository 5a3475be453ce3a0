// The disk after a fault.
use std::marker::Model;
use wse_disk::Disk;

/// A step was broken off by a fault of the disk. Only the disk is left. Contracts see it as that.
pub struct Broken<D: Disk> {
    disk: D,
}

impl<D: Disk> Model for Broken<D> {
    ghost Value = { D };

    ghost view = { λ a. a.disk };
}

impl<D: Disk> Broken<D> {
    ghost use Rattle.std.specs.Prelude.{◌≡◌};

    /// The state of a disk that failed.
    pub(crate) fn new(disk: D) -> Broken<D>
        ensures { result ≡ disk }
    {
        Broken { disk }
    }

    /// Hands the disk back.
    pub fn into_disk(self) -> D
        ensures { result ≡ self }
    {
        let Broken { disk } = self;
        disk
    }
}
