ghost use Rattle.std.specs.Prelude.{◌≡◌, ◌<◌, ◌≤◌, ◌+◌, ◌↔◌, ℕ, List, length, Err, IsErrOf, OnOk, OnErr};
ghost use Rattle.ct_faults.specs.Causes.{Rose};
ghost use Rattle.ct_faults.specs.Disk.{Changes, Runs, LeavesOnly, TakesRoom};
ghost use Rattle.ct_log.specs.Append.{IsFrame, AllAreLogs, AllAreOneLog, IsAppended, MayAppend, IsFullExactly, TakesAtMost, most_bytes};

use crate::{LogError, write_synced};
use ct_faults::Disk;

/// The most bytes of a log: 64 MiB.
const MOST_BYTES: u64 = 67_108_864;

/// The gate of a record.
pub const OPEN: u8 = 1;

/// A gate at which a log ends.
pub const CLOSED: u8 = 0;

/// The log of an area, up to its closed gate.
#[derive(Clone, Copy, Debug, PartialEq, Eq)]
pub struct Log {
    area: u8,
    used: u64,
    ghost in_disk: { area < 6 },
    ghost has_gate: { 0 < used },
}

impl Log {
    /// The log of this area, whose closed gate is the last of so many bytes. `append` asks that it stands there.
    pub fn open(area: u8, used: u64) -> Log
        requires in_disk { area < 6 }
        requires has_gate { 0 < used }
        ensures area { result.area ≡ area }
        ensures used { result.used ≡ used }
    {
        Log { area, used }
    }

    /// How many bytes the log has, its closed gate among them.
    pub fn used(&self) -> u64
        ensures { result ≡ self.now.used }
    {
        self.used
    }

    /// Adds a record, whose frame this is, by four calls of the disk: the frame goes behind the closed gate, and is synced;
    /// then that gate is opened, and is synced.
    ///
    /// `LogFull` comes exactly where the log would have more than 67,108,864 bytes, and no call was made then. `DiskFault`
    /// comes only where the disk's count of faults rose; the disk is to be opened again.
    ///
    /// Each image that a crash may leave as the call begins has to be this log, with the same records.
    pub fn append<D: Disk>(&mut self, disk: &mut D, body: &[u8]) -> Result<(), LogError>
        requires frame { IsFrame body.now }
        requires log { D.honest disk.old → AllAreOneLog self.old.area self.old.used (D.images disk.old (D.clock disk.old)) }
        requires room_calls { 4 ≤ D.room_calls disk.old }
        requires room_bytes { length body.now + 1 ≤ D.room_bytes disk.old }

        // the answer, and the log as a value
        ensures full { IsFullExactly self.old.used (length body.now) result }
        ensures area { self.new.area ≡ self.old.area }
        ensures ok { OnOk result (self.new.used ≡ self.old.used + length body.now) }
        ensures err { OnErr result (self.new.used ≡ self.old.used) }

        // the disk
        ensures honest { D.honest disk.old ↔ D.honest disk.new }
        ensures unchanged { most_bytes < self.old.used + length body.now → disk.new ≡ disk.old }
        ensures rises { D.honest disk.old → self.old.used + length body.now ≤ most_bytes → D.clock disk.old < D.clock disk.new }
        ensures later { D.faults disk.old ≤ D.faults disk.new }
        ensures fault { IsErrOf result LogError.DiskFault → Rose (D.faults disk.old) (D.faults disk.new) }
        ensures room { TakesAtMost 4 (length body.now + 1) (D.room_calls disk.old) (D.room_bytes disk.old) (D.room_calls disk.new) (D.room_bytes disk.new) }
        ensures all_room { OnOk result (TakesRoom 4 (length body.now + 1) (D.room_calls disk.old) (D.room_bytes disk.old) (D.room_calls disk.new) (D.room_bytes disk.new)) }

        // at each moment of the call a crash leaves the records that were there, or one more; other areas stay
        ensures images { D.honest disk.old → (payloads : List (List ℕ)) → AllAreLogs self.old.area payloads self.old.used (D.images disk.old (D.clock disk.old))
            → Runs (D.clock disk.old) (D.clock disk.new) (D.images disk.old) (D.images disk.new) (Changes self.old.area (MayAppend payloads self.old.used body.now)) }

        // after Ok it leaves what reads give, with one record more
        ensures durable { D.honest disk.old → OnOk result (LeavesOnly (D.content disk.new) (D.images disk.new (D.clock disk.new))) }
        ensures appended { D.honest disk.old → OnOk result ((payloads : List (List ℕ)) → AllAreLogs self.old.area payloads self.old.used (D.images disk.old (D.clock disk.old))
            → Changes self.old.area (IsAppended payloads self.old.used body.now) (D.content disk.old) (D.content disk.new)) }
    {
        let needed = body.len() as u64;
        if needed > MOST_BYTES || self.used > MOST_BYTES - needed {
            return Err(LogError::LogFull {
                used: self.used,
                needed,
            });
        }
        write_synced(disk, self.area, self.used, body)?;
        write_synced(disk, self.area, self.used - 1, &[OPEN])?;
        self.used += needed;
        Ok(())
    }
}
