ghost use Rattle.std.specs.Prelude.{◌≡◌, ◌≤◌, OnOk, OnErr, IsErrOf};
ghost use Rattle.std.specs.Io.KnownBytes.{Appends};
ghost use Rattle.ct_faults.specs.Causes.{Rose, HasCause};
ghost use Rattle.ct_faults.specs.Bytes.{ReadsAll, AppendsFront};
ghost use Rattle.ct_faults.specs.declared.whole.ReadError.TheVariants.{ReadFault, Memory as OutOfMemory};

use crate::{Failed, Sink, Source, WriteFault};
use ct_types::Bin;
use std::alloc::{AllocError, Global};
use thiserror::Error;

/// The most bytes that `read_all` gives: 16 MiB.
const MOST_BYTES: usize = 16_777_216;

/// How many bytes `read_all` asks for at a time.
const PIECE: usize = 4096;

/// Why a whole read gave no bytes.
#[derive(Clone, Copy, Debug, PartialEq, Eq, Error)]
pub enum ReadError {
    /// A read of the source failed: its count of faults rose.
    #[error("the source failed")]
    ReadFault,
    /// More than 16,777,216 bytes were taken.
    #[error("the source has more than 16777216 bytes")]
    TooLarge,
    /// Out of memory.
    #[error("out of memory")]
    Memory,
}

impl From<Failed> for ReadError {
    ghost from_gives = { λ _ e. e ≡ ReadFault };

    fn from(_: Failed) -> ReadError {
        ReadError::ReadFault
    }
}

impl From<AllocError> for ReadError {
    ghost from_gives = { λ _ e. e ≡ OutOfMemory };

    fn from(_: AllocError) -> ReadError {
        ReadError::Memory
    }
}

/// Reads to the end, and gives all the bytes that it took.
///
/// `TooLarge` comes exactly where more than 16,777,216 bytes were taken, `ReadFault` only where the source's count of
/// faults rose. After an error the bytes that were taken are gone from the source.
pub fn read_all<S: Source>(alloc: Global, source: &mut S) -> Result<Bin, ReadError>
    ensures bytes { ReadsAll (S.left source.old) (S.left source.new) result }
    ensures later { S.faults source.old ≤ S.faults source.new }
    ensures fault { IsErrOf result ReadError.ReadFault → Rose (S.faults source.old) (S.faults source.new) }
{
    let mut taken = Vec::new(alloc);
    let mut buf = [0u8; PIECE];
    loop {
        let count = source.read(&mut buf)?;
        if count == 0 {
            return Ok(Bin::from_vec(taken));
        }
        if count > MOST_BYTES - taken.len() {
            return Err(ReadError::TooLarge);
        }
        taken.extend_from_slice(&buf[..count])?;
    }
}

/// Appends all the bytes.
///
/// `WriteFault` comes only where the sink's count of faults rose; a front part of the bytes was then appended.
pub fn write_all<K: Sink>(sink: &mut K, bytes: &[u8]) -> Result<(), WriteFault>
    ensures ok { OnOk result (Appends (K.held sink.old) (K.held sink.new) bytes.now) }
    ensures err { OnErr result (AppendsFront (K.held sink.old) (K.held sink.new) bytes.now) }
    ensures cause { HasCause (K.faults sink.old) (K.faults sink.new) result }
{
    let mut sent = 0;
    while sent < bytes.len() {
        let count = sink.write(&bytes[sent..])?;
        sent += count;
    }
    Ok(())
}
