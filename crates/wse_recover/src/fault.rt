// Why a store isn't made, and why its journal isn't read.
ghost use Rattle.std.specs.Prelude.{◌≡◌};
ghost use Rattle.wse_recover.specs.Faults.{fault_of_scan};

use crate::unsettled::Unsettled;
use wse_disk::{Disk, Failed, ReadErr};
use wse_log::ScanFault;
use wse_path::{Hit, Memory, RelPath, Which};

/// Why a store isn't made. The disk is handed back.
pub enum InitFault<D: Disk> {
    /// The disk failed.
    Disk(D),
    /// The tree passes this limit: so many there are. Nothing was written.
    TooBig { disk: D, which: Which, found: u64 },
    /// There was no memory. Nothing was written.
    Memory(D),
}

/// Why a tree isn't taken into a new store.
#[derive(Drop)]
pub(crate) enum Unmade {
    /// The disk failed.
    Disk,
    /// The tree passes a limit.
    TooBig(Hit),
    /// There was no memory.
    Memory,
}

impl From<Failed> for Unmade {
    ghost use Rattle.std.specs.Prelude.{◌≡◌};
    ghost use Rattle.wse_recover.specs.declared.fault.Unmade.TheVariants as unmade;

    ghost from_gives = { λ _ fault. fault ≡ unmade.Disk };

    fn from(_: Failed) -> Unmade {
        Unmade::Disk
    }
}

impl From<Memory> for Unmade {
    ghost use Rattle.std.specs.Prelude.{◌≡◌};
    ghost use Rattle.wse_recover.specs.declared.fault.Unmade.TheVariants as unmade;

    ghost from_gives = { λ _ fault. fault ≡ unmade.Memory };

    fn from(_: Memory) -> Unmade {
        Unmade::Memory
    }
}

impl From<ReadErr> for Unmade {
    ghost use Rattle.std.specs.Prelude.{◌≡◌};
    ghost use Rattle.wse_recover.specs.Init.{unmade_of};

    ghost from_gives = { λ e fault. fault ≡ unmade_of e };

    fn from(e: ReadErr) -> Unmade {
        match e {
            ReadErr::Failed => Unmade::Disk,
            ReadErr::Memory => Unmade::Memory,
        }
    }
}

/// Why a record's effects aren't entered.
#[derive(Drop)]
pub(crate) enum EnterRefused {
    /// One isn't applicable.
    NotApplicable,
    /// There was no memory.
    Memory,
}

impl From<Memory> for EnterRefused {
    ghost use Rattle.std.specs.Prelude.{◌≡◌};
    ghost use Rattle.wse_recover.specs.declared.fault.EnterRefused.TheVariants as refusals;

    ghost from_gives = { λ _ fault. fault ≡ refusals.Memory };

    fn from(_: Memory) -> EnterRefused {
        EnterRefused::Memory
    }
}

/// What one round read.
#[derive(Drop)]
pub enum Round {
    /// A record, and what is kept of it where it isn't settled. The next piece stands at `next`.
    Entered { last: Option<Unsettled>, next: u64 },
    /// The journal ends: the gate at this place is closed.
    Ended { gate: u64 },
}

/// Why a journal isn't read to its end.
#[derive(Drop)]
pub enum ReplayFault {
    /// The first place at which it is no journal of a store.
    NotAStore { at: u64 },
    /// The disk failed.
    Disk,
    /// There was no memory.
    Memory,
}

impl From<Failed> for ReplayFault {
    ghost use Rattle.std.specs.Prelude.{◌≡◌};
    ghost use Rattle.wse_recover.specs.declared.fault.ReplayFault.TheVariants as faults;

    ghost from_gives = { λ _ fault. fault ≡ faults.Disk };

    fn from(_: Failed) -> ReplayFault {
        ReplayFault::Disk
    }
}

impl From<Memory> for ReplayFault {
    ghost use Rattle.std.specs.Prelude.{◌≡◌};
    ghost use Rattle.wse_recover.specs.declared.fault.ReplayFault.TheVariants as faults;

    ghost from_gives = { λ _ fault. fault ≡ faults.Memory };

    fn from(_: Memory) -> ReplayFault {
        ReplayFault::Memory
    }
}

/// Why a last record isn't finished. Nothing was written.
#[derive(Drop)]
pub(crate) enum Unfinished {
    /// The disk failed.
    Disk,
    /// This file is the first in the way of what the record makes present.
    InTheWay(RelPath),
    /// There was no memory.
    Memory,
}

impl From<Memory> for Unfinished {
    ghost use Rattle.std.specs.Prelude.{◌≡◌};
    ghost use Rattle.wse_recover.specs.declared.fault.Unfinished.TheVariants as unfinished;

    ghost from_gives = { λ _ fault. fault ≡ unfinished.Memory };

    fn from(_: Memory) -> Unfinished {
        Unfinished::Memory
    }
}

impl From<ReadErr> for Unfinished {
    ghost use Rattle.std.specs.Prelude.{◌≡◌};
    ghost use Rattle.wse_recover.specs.Faults.{unfinished_of};

    ghost from_gives = { λ e fault. fault ≡ unfinished_of e };

    fn from(e: ReadErr) -> Unfinished {
        match e {
            ReadErr::Failed => Unfinished::Disk,
            ReadErr::Memory => Unfinished::Memory,
        }
    }
}

/// The fault as one of reading a journal.
pub(crate) fn of_scan(fault: ScanFault) -> ReplayFault
    ensures { result ≡ fault_of_scan fault }
{
    match fault {
        ScanFault::NotALog { at } => ReplayFault::NotAStore { at },
        ScanFault::Disk => ReplayFault::Disk,
        ScanFault::Memory => ReplayFault::Memory,
    }
}
