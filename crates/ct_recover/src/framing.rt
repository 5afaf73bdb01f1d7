ghost use Rattle.std.specs.Prelude.{◌≡◌, ◌⊎◌, ◌+◌, ◌<◌, ◌≤◌, ◌^◌, ◌↔◌, ℕ, List, length, IfOk, IfErr, IsErrOf, OnOk, OnErr};
ghost use Rattle.ct_codec.specs.Spellings.{spell_entry, EntryFits, bare};
ghost use Rattle.ct_faults.specs.Causes.{Rose};
ghost use Rattle.ct_faults.specs.Disk.{Same, Changes, Runs, LeavesOnly};
ghost use Rattle.ct_log.specs.Append.{IsFrame, AllAreLogs, AllAreOneLog, IsAppended, MayAppend};
ghost use Rattle.ct_recover.specs.Volume.{IsFullExactly, IsRefusal, IsFrameOf};

use crate::VolumeError;
use ct_codec::put_entry;
use ct_faults::Disk;
use ct_log::{Log, frame};
use ct_types::{Bin, Entry, Memory};
use std::alloc::Global;

/// The frame of the record of an entry.
pub fn framed(alloc: Global, entry: &Entry) -> Result<Bin, Memory>
    requires fits { EntryFits (bare entry.now) }
    requires short { length (spell_entry (bare entry.now)) < 2 ^ 32 }
    ensures { IfOk result (IsFrameOf entry.now (length (spell_entry (bare entry.now)) + 5)) }
{
    let payload = put_entry(alloc, entry)?;
    frame(alloc, payload.as_bytes())
}

/// Makes the room that a frame needs on the disk, and appends it to the log.
pub fn append_frame<D: Disk>(disk: &mut D, log: &mut Log, body: &[u8]) -> Result<(), VolumeError>
    requires frame { IsFrame body.now }
    requires log { D.honest disk.old → AllAreOneLog log.old.area log.old.used (D.images disk.old (D.clock disk.old)) }
    ensures full { IsFullExactly log.old.used (length body.now) result ⊎ IsErrOf result VolumeError.Memory }
    ensures area { log.new.area ≡ log.old.area }
    ensures ok { OnOk result (log.new.used ≡ log.old.used + length body.now) }
    ensures err { OnErr result (log.new.used ≡ log.old.used) }
    ensures honest { D.honest disk.old ↔ D.honest disk.new }
    ensures rises { D.honest disk.old → OnOk result (D.clock disk.old < D.clock disk.new) }
    ensures later { D.faults disk.old ≤ D.faults disk.new }
    ensures fault { IsErrOf result VolumeError.DiskFault → Rose (D.faults disk.old) (D.faults disk.new) }
    ensures kept_content { D.honest disk.old → IfErr result (λ e. IsRefusal e → D.content disk.new ≡ D.content disk.old) }
    ensures kept_images { D.honest disk.old → IfErr result (λ e. IsRefusal e → Runs (D.clock disk.old) (D.clock disk.new) (D.images disk.old) (D.images disk.new) Same) }
    ensures images { D.honest disk.old → (payloads : List (List ℕ)) → AllAreLogs log.old.area payloads log.old.used (D.images disk.old (D.clock disk.old))
        → Runs (D.clock disk.old) (D.clock disk.new) (D.images disk.old) (D.images disk.new) (Changes log.old.area (MayAppend payloads log.old.used body.now)) }
    ensures durable { D.honest disk.old → OnOk result (LeavesOnly (D.content disk.new) (D.images disk.new (D.clock disk.new))) }
    ensures appended { D.honest disk.old → OnOk result ((payloads : List (List ℕ)) → AllAreLogs log.old.area payloads log.old.used (D.images disk.old (D.clock disk.old))
        → Changes log.old.area (IsAppended payloads log.old.used body.now) (D.content disk.old) (D.content disk.new)) }
{
    disk.ready(4, body.len() as u64 + 1)?;
    log.append(disk, body)?;
    Ok(())
}
