// What a scan of one piece of a journal answers.
use wse_disk::{Failed, ReadErr};
use wse_path::Bytes;

/// One piece of a journal.
#[derive(Drop)]
pub enum Step {
    /// A record.
    Entry {
        /// What the record says, as it was written.
        body: Bytes,
        /// The place of the record's open gate.
        gate: u64,
        /// Whether the record is settled.
        settled: bool,
        /// The place of the next gate.
        next: u64,
    },
    /// The journal ends: the gate at this place is closed.
    End {
        gate: u64,
    },
}

/// Why a scan gave no piece.
#[derive(Debug, Clone, Copy, PartialEq, Eq)]
pub enum ScanFault {
    /// The area is no journal: the first place where it isn't, in reading order.
    NotALog { at: u64 },
    /// The disk failed.
    Disk,
    /// There was no memory for a body.
    Memory,
}

impl From<Failed> for ScanFault {
    ghost use Rattle.std.specs.Prelude.{◌≡◌};
    ghost use Rattle.wse_log.specs.declared.step.ScanFault.TheVariants.{Disk};

    ghost from_gives = { λ _ e. e ≡ Disk };

    fn from(_: Failed) -> ScanFault {
        ScanFault::Disk
    }
}

impl From<ReadErr> for ScanFault {
    ghost use Rattle.wse_log.specs.Reads.{scan_fault_of};
    ghost use Rattle.std.specs.Prelude.{◌≡◌};

    ghost from_gives = { λ e fault. fault ≡ scan_fault_of e };

    fn from(e: ReadErr) -> ScanFault {
        match e {
            ReadErr::Failed => ScanFault::Disk,
            ReadErr::Memory => ScanFault::Memory,
        }
    }
}
