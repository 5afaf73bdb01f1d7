ghost use Rattle.std.specs.Prelude.{◌≡◌, ℕ, None, Err, length, IfOk, IfSome, IsErrOf};
ghost use Rattle.ct_model.specs.declared.db.Db.{Db as ADb};
ghost use Rattle.ct_codec.specs.EntryReaders.{piece_of};
ghost use Rattle.ct_found.specs.Checkpoint.{IsCheckpoint, PiecesStop};
ghost use Rattle.ct_checkpoint.specs.Reading.{ReadsUpTo, ReadsWhole, BeginsWith, StepsTo, stepped};
ghost use Rattle.ct_checkpoint.specs.declared.reading.CheckpointFault.TheVariants.{Memory as OutOfMemory};

use crate::following::{follows, starts};
use crate::gathering::with_piece;
use ct_codec::{CodecError, get_piece};
use ct_model::Db;
use ct_types::{Memory, Piece};
use std::alloc::Global;

/// Why bytes are no checkpoint.
#[derive(Clone, Copy, Debug, PartialEq, Eq)]
pub enum CheckpointFault {
    /// Up to this offset stand pieces with which some valid database begins, and they go no further.
    Stopped { offset: u64 },
    /// Out of memory.
    Memory,
}

impl From<Memory> for CheckpointFault {
    ghost from_gives = { λ _ e. e ≡ OutOfMemory };

    fn from(_: Memory) -> CheckpointFault {
        CheckpointFault::Memory
    }
}

/// What a step of the reading finds.
#[derive(Drop)]
enum Step {
    /// One piece more: what the pieces make so far, and the offset behind them.
    More { db: Db, at: usize },
    /// The end: the database, and the offset behind it.
    Ended { db: Db, at: usize },
    /// No piece that goes on.
    Stopped,
}

/// The piece with which bytes begin, and its length, or none.
fn next_piece(alloc: Global, bytes: &[u8]) -> Result<Option<(Piece, usize)>, Memory>
    ensures some { IfOk result (λ found. IfSome found (λ one. BeginsWith bytes.now one.0 one.1)) }
    ensures none { IfOk result (λ found. found ≡ None → piece_of bytes.now ≡ None) }
{
    match get_piece(alloc, bytes) {
        Ok((piece, size)) => Ok(Some((piece, size as usize))),
        Err(CodecError::NotCanonical) => Ok(None),
        Err(CodecError::Memory) => Err(Memory),
    }
}

/// The step behind a piece that goes on with a database, at the offset behind it.
fn step_behind(alloc: Global, db: Db, piece: Piece, at: usize) -> Result<Step, Memory>
    ensures { IfOk result (λ step. step ≡ stepped db piece at) }
{
    if matches!(piece, Piece::End) {
        return Ok(Step::Ended { db, at });
    }
    Ok(Step::More {
        db: with_piece(alloc, db, piece)?,
        at,
    })
}

/// The first step.
fn first_step(alloc: Global, bytes: &[u8]) -> Result<Step, Memory>
    ensures { IfOk result (StepsTo bytes.now 0) }
{
    let Some((piece, size)) = next_piece(alloc, bytes)? else {
        return Ok(Step::Stopped);
    };
    if !starts(&piece) {
        return Ok(Step::Stopped);
    }
    step_behind(alloc, Db::empty(alloc)?, piece, size)
}

/// The step behind the pieces of a database.
fn next_step(alloc: Global, db: Db, bytes: &[u8], at: usize) -> Result<Step, Memory>
    requires { ReadsUpTo bytes.now db at }
    ensures { IfOk result (StepsTo bytes.now at) }
{
    let Some((piece, size)) = next_piece(alloc, &bytes[at..])? else {
        return Ok(Step::Stopped);
    };
    if !follows(alloc, &db, &piece)? {
        return Ok(Step::Stopped);
    }
    step_behind(alloc, db, piece, at + size)
}

/// The answer behind an end: the database, where the bytes end too.
fn ended(db: Db, bytes: &[u8], at: usize) -> Result<Db, CheckpointFault>
    requires { ReadsWhole bytes.now db at }
    ensures whole { IfOk result (IsCheckpoint bytes.now (length bytes.now)) }
    ensures stopped { (offset : ℕ) → result ≡ Err (CheckpointFault.Stopped offset) → PiecesStop bytes.now offset }
{
    if at == bytes.len() {
        Ok(db)
    } else {
        Err(CheckpointFault::Stopped { offset: at as u64 })
    }
}

/// The database whose checkpoint the whole of the bytes is.
///
/// `Stopped` comes exactly where they are that of no valid database, with the offset of the first fault: up to there stand
/// pieces that some valid database has first, and behind them no piece with which some valid database goes on, or bytes behind
/// an end.
pub fn read_checkpoint(alloc: Global, bytes: &[u8]) -> Result<Db, CheckpointFault>
    ensures whole { IfOk result (IsCheckpoint bytes.now (length bytes.now)) }
    ensures stopped { (offset : ℕ) → result ≡ Err (CheckpointFault.Stopped offset) → PiecesStop bytes.now offset }
{
    let mut at = 0;
    let mut step = first_step(alloc, bytes)?;
    loop {
        match step {
            Step::More { db, at: to } => {
                step = next_step(alloc, db, bytes, to)?;
                at = to;
            }
            Step::Ended { db, at: to } => return ended(db, bytes, to),
            Step::Stopped => return Err(CheckpointFault::Stopped { offset: at as u64 }),
        }
    }
}

/// The database whose checkpoint the whole of the bytes is. `NotCanonical` comes exactly where they are that of none.
pub fn get_db(alloc: Global, bytes: &[u8]) -> Result<Db, CodecError>
    ensures ok { IfOk result (IsCheckpoint bytes.now (length bytes.now)) }
    ensures canonical { IsErrOf result CodecError.NotCanonical → (db : ADb) → IsCheckpoint bytes.now (length bytes.now) db → ⊥ }
{
    match read_checkpoint(alloc, bytes) {
        Ok(db) => Ok(db),
        Err(CheckpointFault::Stopped { offset: _ }) => Err(CodecError::NotCanonical),
        Err(CheckpointFault::Memory) => Err(CodecError::Memory),
    }
}
