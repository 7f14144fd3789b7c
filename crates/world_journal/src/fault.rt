// Why the calls of a journal fail. Each message is the variant's name alone.

use frame_log::{AppendFault as LogFault, ReadFault};
use std::alloc::{AllocError, AllocFailed};
use thiserror::Error;
use world_io::Failed;

/// Why nothing is recovered.
#[derive(Error, Clone, Copy, Debug, PartialEq, Eq)]
pub enum RecoverFault {
    /// Nothing was ever committed on the disk.
    #[error("Empty")]
    Empty,
    /// A call of the disk failed.
    #[error("DiskFault")]
    DiskFault,
    /// The frame behind the gate at this place is the first that is none of a journal's.
    #[error("NotAJournal")]
    NotAJournal(u64),
    /// There is not enough memory.
    #[error("Memory")]
    Memory,
}

impl From<Failed> for RecoverFault {
    ghost use Rattle.std.specs.Prelude.{◌≡◌};
    ghost use Rattle.world_journal.specs.declared.fault.RecoverFault.TheVariants.{DiskFault};

    ghost from_gives = { λ _ e. e ≡ DiskFault };

    fn from(_: Failed) -> Self {
        RecoverFault::DiskFault
    }
}

impl From<AllocError> for RecoverFault {
    ghost use Rattle.std.specs.Prelude.{◌≡◌};
    ghost use Rattle.world_journal.specs.declared.fault.RecoverFault.TheVariants.{Memory};

    ghost from_gives = { λ _ e. e ≡ Memory };

    fn from(_: AllocError) -> Self {
        RecoverFault::Memory
    }
}

impl From<ReadFault> for RecoverFault {
    ghost use Rattle.std.specs.Prelude.{◌≡◌};
    ghost use Rattle.world_journal.specs.inner.FaultsOf.{recover_fault};

    ghost from_gives = { λ fault e. e ≡ recover_fault fault };

    fn from(fault: ReadFault) -> Self {
        match fault {
            ReadFault::DiskFault => RecoverFault::DiskFault,
            ReadFault::Memory => RecoverFault::Memory,
        }
    }
}

/// Why nothing is added.
#[derive(Error, Clone, Copy, Debug, PartialEq, Eq)]
pub enum AppendFault {
    /// A call of the disk failed. What stands there is known once the journal is recovered.
    #[error("DiskFault")]
    DiskFault,
    /// A call of the disk failed earlier, and the journal was not recovered since.
    #[error("Closed")]
    Closed,
    /// There is not enough memory.
    #[error("Memory")]
    Memory,
}

impl From<AllocError> for AppendFault {
    ghost use Rattle.std.specs.Prelude.{◌≡◌};
    ghost use Rattle.world_journal.specs.declared.fault.AppendFault.TheVariants.{Memory};

    ghost from_gives = { λ _ e. e ≡ Memory };

    fn from(_: AllocError) -> Self {
        AppendFault::Memory
    }
}

impl From<LogFault> for AppendFault {
    ghost use Rattle.std.specs.Prelude.{◌≡◌};
    ghost use Rattle.world_journal.specs.inner.FaultsOf.{append_fault};

    ghost from_gives = { λ fault e. e ≡ append_fault fault };

    fn from(fault: LogFault) -> Self {
        match fault {
            LogFault::DiskFault => AppendFault::DiskFault,
            LogFault::Closed => AppendFault::Closed,
            LogFault::Memory => AppendFault::Memory,
        }
    }
}

/// Why nothing is found.
#[derive(Error, Clone, Copy, Debug, PartialEq, Eq)]
pub enum AtFault {
    /// Nothing was ever committed on the disk.
    #[error("NoJournal")]
    NoJournal,
    /// The journal's worlds are those of the ticks from the first to the last, and this is none of them; or
    /// the first was asked for a record.
    #[error("NoSuchTick")]
    NoSuchTick { first: u64, last: u64 },
    /// A call of the disk failed.
    #[error("DiskFault")]
    DiskFault,
    /// The frame behind the gate at this place is the first that is none of a journal's.
    #[error("NotAJournal")]
    NotAJournal(u64),
    /// There is not enough memory.
    #[error("Memory")]
    Memory,
}

impl From<AllocError> for AtFault {
    ghost use Rattle.std.specs.Prelude.{◌≡◌};
    ghost use Rattle.world_journal.specs.declared.fault.AtFault.TheVariants.{Memory};

    ghost from_gives = { λ _ e. e ≡ Memory };

    fn from(_: AllocError) -> Self {
        AtFault::Memory
    }
}

impl<T: Drop> From<AllocFailed<T>> for AtFault {
    ghost use Rattle.std.specs.Prelude.{◌≡◌};
    ghost use Rattle.world_journal.specs.declared.fault.AtFault.TheVariants.{Memory};

    ghost from_gives = { λ _ e. e ≡ Memory };

    fn from(_: AllocFailed<T>) -> Self {
        AtFault::Memory
    }
}

impl From<RecoverFault> for AtFault {
    ghost use Rattle.std.specs.Prelude.{◌≡◌};
    ghost use Rattle.world_journal.specs.inner.FaultsOf.{at_fault};

    ghost from_gives = { λ fault e. e ≡ at_fault fault };

    fn from(fault: RecoverFault) -> Self {
        match fault {
            RecoverFault::Empty => AtFault::NoJournal,
            RecoverFault::DiskFault => AtFault::DiskFault,
            RecoverFault::NotAJournal(gate) => AtFault::NotAJournal(gate),
            RecoverFault::Memory => AtFault::Memory,
        }
    }
}
