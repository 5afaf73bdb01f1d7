ghost use Rattle.std.specs.Prelude.{◌≡◌, ◌+◌, ◌<◌, ◌≤◌, ◌^◌, ◌↔◌, length, IfErr, IsErrOf, OnOk, OnErr};
ghost use Rattle.ct_codec.specs.Spellings.{spell_entry, EntryFits, bare};
ghost use Rattle.ct_faults.specs.Causes.{Rose};
ghost use Rattle.ct_faults.specs.Disk.{Same, Runs};
ghost use Rattle.ct_model.specs.declared.db.Db.{Db};
ghost use Rattle.ct_model.specs.Applies.{Applies};
ghost use Rattle.ct_model.specs.Apply.{apply as applied};
ghost use Rattle.ct_pages.specs.Slots.{IsCanonical};
ghost use Rattle.ct_found.specs.Found.{last_of};
ghost use Rattle.ct_found.specs.Laws.{Elsewhere};
ghost use Rattle.ct_recover.specs.Volume.{IsSteady, MayTake, MayAppendTo, IsFullExactly, IsRefusal};

use crate::VolumeError;
use crate::framing::{append_frame, framed};
use ct_codec::entry_size;
use ct_faults::Disk;
use ct_log::Log;
use ct_pages::Super;
use ct_types::Entry;
use std::alloc::Global;

/// The most bytes of a log: 64 MiB.
const MOST_BYTES: u64 = 67_108_864;

/// The bytes of a record beside its payload: its length, and the gate behind it.
const FRAME_BYTES: u64 = 5;

/// A disk that stands for a database, and the log to which its entries go.
#[derive(Debug)]
pub struct Volume<D: Disk> {
    disk: D,
    current: Super,
    log: Log,
    ghost log_is: { log.area ≡ last_of current },
}

/// The area of the log that a slot names last.
fn last_log(slot: Super) -> u8
    ensures { result ≡ last_of slot }
{
    if slot.second == 0 {
        slot.first
    } else {
        slot.second
    }
}

impl<D: Disk> Volume<D> {
    /// The volume of a disk whose current slot this is, with so many used bytes in its last log.
    pub fn new(disk: D, current: Super, used: u64) -> Volume<D>
        requires canonical { IsCanonical current }
        requires used { 0 < used }
        ensures disk { result.disk ≡ disk }
        ensures current { result.current ≡ current }
        ensures used { result.log.used ≡ used }
    {
        let log = Log::open(last_log(current), used);
        Volume { disk, current, log }
    }

    /// How many bytes of the last log are used, its closed gate among them.
    pub fn used(&self) -> u64
        ensures { result ≡ self.now.log.used }
    {
        self.log.used()
    }

    /// The disk.
    pub fn into_disk(self) -> D
        ensures { result ≡ self.disk }
    {
        let Volume {
            disk,
            current: _,
            log: _,
        } = self;
        disk
    }

    /// Appends an entry to the last log. Memory and room are taken before the first call of the disk that writes.
    ///
    /// The entry can be spelled, and applies to the database for which the disk stands. At each moment of the call a crash
    /// leaves a disk that stands for this database, or for it with the entry applied; after Ok for the latter, and no area
    /// but that of the last log has changed.
    ///
    /// `LogFull` comes exactly where the log would have more than 67,108,864 bytes. After it, and after `Memory`, the disk
    /// stands for what it stood for. `DiskFault` comes only where the disk's count of faults rose; the disk is to be opened
    /// again then. After each of the three, `used` is as before.
    pub fn append(&mut self, alloc: Global, entry: &Entry) -> Result<(), VolumeError>
        requires fits { EntryFits (bare entry.now) }
        requires short { length (spell_entry (bare entry.now)) + 5 < 2 ^ 64 }
        requires takes { D.honest self.old.disk → MayTake self.old.current self.old.log.used (D.content self.old.disk) (D.images self.old.disk (D.clock self.old.disk)) entry.now }

        // the answer, and the volume as a value
        ensures full { IsFullExactly self.old.log.used (length (spell_entry (bare entry.now)) + 5) result }
        ensures current { self.new.current ≡ self.old.current }
        ensures ok { OnOk result (self.new.log.used ≡ self.old.log.used + (length (spell_entry (bare entry.now)) + 5)) }
        ensures err { OnErr result (self.new.log.used ≡ self.old.log.used) }

        // the disk
        ensures honest { D.honest self.old.disk ↔ D.honest self.new.disk }
        ensures rises { D.honest self.old.disk → OnOk result (D.clock self.old.disk < D.clock self.new.disk) }
        ensures later { D.faults self.old.disk ≤ D.faults self.new.disk }
        ensures fault { IsErrOf result VolumeError.DiskFault → Rose (D.faults self.old.disk) (D.faults self.new.disk) }

        // at each moment of the call a crash leaves the database before it, or with the entry applied
        ensures images { D.honest self.old.disk → (db : Db) → IsSteady self.old.current self.old.log.used (D.content self.old.disk) (D.images self.old.disk (D.clock self.old.disk)) db → Applies db entry.now
            → Runs (D.clock self.old.disk) (D.clock self.new.disk) (D.images self.old.disk) (D.images self.new.disk) (MayAppendTo db entry.now) }

        // after Ok the latter
        ensures appended { D.honest self.old.disk → OnOk result ((db : Db) → IsSteady self.old.current self.old.log.used (D.content self.old.disk) (D.images self.old.disk (D.clock self.old.disk)) db → Applies db entry.now
            → IsSteady self.new.current self.new.log.used (D.content self.new.disk) (D.images self.new.disk (D.clock self.new.disk)) (applied db entry.now)) }

        ensures elsewhere { D.honest self.old.disk → OnOk result (Elsewhere (last_of self.old.current) (D.content self.old.disk) (D.content self.new.disk)) }

        // after LogFull and Memory the former, with no change
        ensures kept_content { D.honest self.old.disk → IfErr result (λ e. IsRefusal e → D.content self.new.disk ≡ D.content self.old.disk) }
        ensures kept_images { D.honest self.old.disk → IfErr result (λ e. IsRefusal e → Runs (D.clock self.old.disk) (D.clock self.new.disk) (D.images self.old.disk) (D.images self.new.disk) Same) }
    {
        let needed = entry_size(entry) + FRAME_BYTES;
        if needed > MOST_BYTES || self.log.used() > MOST_BYTES - needed {
            return Err(VolumeError::LogFull {
                used: self.log.used(),
                needed,
            });
        }
        let body = framed(alloc, entry)?;
        append_frame(&mut self.disk, &mut self.log, body.as_bytes())
    }
}
