use ct_faults::Failed;
use ct_types::Memory;
use std::alloc::AllocError;
use thiserror::Error;

/// Why a record was not appended.
#[derive(Clone, Copy, Debug, PartialEq, Eq, Error)]
pub enum LogError {
    /// The log would have more than 67,108,864 bytes: so many are used, and so many more would be needed.
    #[error("the log has {used} bytes, and has no room for {needed} more")]
    LogFull { used: u64, needed: u64 },
    /// A call of the disk failed: its count of faults rose. The disk is to be opened again.
    #[error("the disk failed")]
    DiskFault,
}

impl From<Failed> for LogError {
    ghost use Rattle.std.specs.Prelude.{◌≡◌};
    ghost use Rattle.ct_log.specs.declared.fault.LogError.TheVariants.{DiskFault};

    ghost from_gives = { λ _ e. e ≡ DiskFault };

    fn from(_: Failed) -> LogError {
        LogError::DiskFault
    }
}

/// Why a disk could not be read as a database.
#[derive(Clone, Copy, Debug, PartialEq, Eq, Error)]
pub enum OpenFault {
    /// What stands in this area, at this offset, is no part of a database.
    #[error("area {area} is foreign at offset {offset}")]
    Foreign { area: u8, offset: u64 },
    /// A call of the disk failed: its count of faults rose.
    #[error("the disk failed")]
    DiskFault,
    /// Out of memory.
    #[error("out of memory")]
    Memory,
}

impl From<Failed> for OpenFault {
    ghost use Rattle.std.specs.Prelude.{◌≡◌};
    ghost use Rattle.ct_log.specs.declared.fault.OpenFault.TheVariants as fault;

    ghost from_gives = { λ _ e. e ≡ fault.DiskFault };

    fn from(_: Failed) -> OpenFault {
        OpenFault::DiskFault
    }
}

impl From<AllocError> for OpenFault {
    ghost use Rattle.std.specs.Prelude.{◌≡◌};
    ghost use Rattle.ct_log.specs.declared.fault.OpenFault.TheVariants as fault;

    ghost from_gives = { λ _ e. e ≡ fault.Memory };

    fn from(_: AllocError) -> OpenFault {
        OpenFault::Memory
    }
}

impl From<Memory> for OpenFault {
    ghost use Rattle.std.specs.Prelude.{◌≡◌};
    ghost use Rattle.ct_log.specs.declared.fault.OpenFault.TheVariants as fault;

    ghost from_gives = { λ _ e. e ≡ fault.Memory };

    fn from(_: Memory) -> OpenFault {
        OpenFault::Memory
    }
}
