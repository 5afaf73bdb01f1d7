ghost use Rattle.std.specs.Prelude.{◌≡◌, ◌*◌, ◌<◌, ℕ, IfOk, IfErr, Err};
ghost use Rattle.ct_replay.specs.Replay.{Replays, BreaksOff};
ghost use Rattle.ct_replay.specs.Steps.{IsTried};
ghost use Rattle.ct_replay.specs.declared.reading.LogFault.TheVariants.{Memory as OutOfMemory};

use crate::adding::added;
use ct_log::{Next, next_record};
use ct_model::{Db, apply};
use ct_types::Memory;
use std::alloc::Global;

/// Why a log makes no database.
#[derive(Clone, Copy, Debug, PartialEq, Eq)]
pub enum LogFault {
    /// At this offset stands neither a closed gate nor a whole record with a gate behind it whose entry applies.
    Broken { offset: u64 },
    /// Out of memory.
    Memory,
}

impl From<Memory> for LogFault {
    ghost from_gives = { λ _ e. e ≡ OutOfMemory };

    fn from(_: Memory) -> LogFault {
        LogFault::Memory
    }
}

/// What the records of a log made of a database.
#[derive(Debug, Drop)]
pub struct Replayed {
    pub db: Db,
    /// How many records there are.
    pub records: u64,
    /// How many bytes the log has, its closed gate among them.
    pub used: u64,
}

/// Adds the entry of a record to a database, and tells whether there was one.
fn add(alloc: Global, db: &mut Db, payload: &[u8]) -> Result<bool, Memory>
    ensures { IfOk result (λ was. IsTried db.old payload.now was db.new) }
{
    match added(alloc, db, payload)? {
        Some(entry) => {
            apply(alloc, db, &entry)?;
            Ok(true)
        }
        None => Ok(false),
    }
}

/// What the records of the log in an area of these bytes make of a database.
///
/// Each record has five bytes at least. `Broken` comes exactly where the replay breaks off, at the first offset at which
/// nothing goes on.
pub fn replay_log(alloc: Global, mut db: Db, bytes: &[u8]) -> Result<Replayed, LogFault>
    ensures replays { IfOk result (λ made. Replays db bytes.now made.db made.records made.used) }
    ensures few { IfOk result (λ made. made.records * 5 < made.used) }
    ensures broken { (offset : ℕ) → result ≡ Err (LogFault.Broken offset) → BreaksOff db bytes.now offset }
{
    let mut records = 0;
    let mut at = 0;
    loop {
        match next_record(bytes, at) {
            Next::Record { from, to } => {
                if !add(alloc, &mut db, &bytes[from..to])? {
                    return Err(LogFault::Broken { offset: at as u64 });
                }
                records += 1;
                at = to;
            }
            Next::Closed => {
                return Ok(Replayed {
                    db,
                    records,
                    used: at as u64 + 1,
                });
            }
            Next::Broken => return Err(LogFault::Broken { offset: at as u64 }),
        }
    }
}
