ghost use Rattle.std.specs.Prelude.{◌≡◌, ◌*◌, ◌<◌, ℕ, IfOk, Err};
ghost use Rattle.ct_replay.specs.Replay.{Replays, BreaksOff};
ghost use Rattle.ct_replay.specs.declared.reading.LogFault.TheVariants.{Broken};

use crate::adding::add;
use crate::applying::are_numbers_within;
use ct_database::Database;
use ct_log::{Next, next_record};
use ct_replay::LogFault;
use std::alloc::Global;

/// What the records of a log made of a database.
#[derive(Drop)]
pub struct Replayed {
    pub database: Database,
    /// How many records there are.
    pub records: u64,
    /// How many bytes the log has, its closed gate among them.
    pub used: u64,
}

/// What the records of the log in an area of these bytes make of a database, which is changed in place: an entry costs what it
/// touches. One whose transaction number is not above all before it costs a walk over the kept commits too.
///
/// Each record has five bytes at least. `Broken` comes exactly where the replay breaks off, at the first offset at which
/// nothing goes on. `Memory` is the only other error.
pub fn replay_log(alloc: Global, mut database: Database, bytes: &[u8]) -> Result<Replayed, LogFault>
    ensures replays { IfOk result (λ made. Replays database bytes.now made.database made.records made.used) }
    ensures few { IfOk result (λ made. made.records * 5 < made.used) }
    ensures broken { (offset : ℕ) → result ≡ Err (Broken offset) → BreaksOff database bytes.now offset }
{
    let within = are_numbers_within(alloc, &database)?;
    let mut records = 0;
    let mut at = 0;
    loop {
        match next_record(bytes, at) {
            Next::Record { from, to } => {
                if !add(alloc, &mut database, within, &bytes[from..to])? {
                    return Err(LogFault::Broken { offset: at as u64 });
                }
                records += 1;
                at = to;
            }
            Next::Closed => {
                return Ok(Replayed {
                    database,
                    records,
                    used: at as u64 + 1,
                });
            }
            Next::Broken => return Err(LogFault::Broken { offset: at as u64 }),
        }
    }
}
