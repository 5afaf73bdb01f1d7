ghost use Rattle.std.specs.Prelude.{◌≡◌};
ghost use Rattle.ct_codec.specs.declared.fault.CodecError.TheVariants.{Memory as OutOfMemory};

use std::alloc::AllocError;
use thiserror::Error;

/// Why bytes gave no entry or no piece.
#[derive(Clone, Copy, Debug, PartialEq, Eq, Error)]
pub enum CodecError {
    /// The bytes are not the spelling of an entry, or begin with that of no piece.
    #[error("the bytes are not in their one spelling")]
    NotCanonical,
    /// Out of memory.
    #[error("out of memory")]
    Memory,
}

impl From<AllocError> for CodecError {
    ghost from_gives = { λ _ e. e ≡ OutOfMemory };

    fn from(_: AllocError) -> CodecError {
        CodecError::Memory
    }
}

impl From<ct_types::Memory> for CodecError {
    ghost from_gives = { λ _ e. e ≡ OutOfMemory };

    fn from(_: ct_types::Memory) -> CodecError {
        CodecError::Memory
    }
}
