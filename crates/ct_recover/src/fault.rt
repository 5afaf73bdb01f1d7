ghost use Rattle.std.specs.Prelude.{◌≡◌};
ghost use Rattle.ct_recover.specs.Volume.{of_log};
ghost use Rattle.ct_recover.specs.declared.fault.VolumeError.TheVariants.{Memory as OutOfMemory};

use ct_log::LogError;
use ct_types::Memory;
use thiserror::Error;

/// Why an entry was not appended.
#[derive(Clone, Copy, Debug, PartialEq, Eq, Error)]
pub enum VolumeError {
    /// The log would have more than 67,108,864 bytes: so many are used, and so many more would be needed.
    #[error("the log has {used} bytes, and has no room for {needed} more")]
    LogFull { used: u64, needed: u64 },
    /// A call of the disk failed: its count of faults rose. The disk is to be opened again.
    #[error("the disk failed")]
    DiskFault,
    /// Out of memory.
    #[error("out of memory")]
    Memory,
}

impl From<Memory> for VolumeError {
    ghost from_gives = { λ _ e. e ≡ OutOfMemory };

    fn from(_: Memory) -> VolumeError {
        VolumeError::Memory
    }
}

impl From<LogError> for VolumeError {
    ghost from_gives = { λ error e. e ≡ of_log error };

    fn from(error: LogError) -> VolumeError {
        match error {
            LogError::LogFull { used, needed } => VolumeError::LogFull { used, needed },
            LogError::DiskFault => VolumeError::DiskFault,
        }
    }
}
