ghost use Rattle.std.specs.Prelude.{◌≡◌, ◌≤◌, ◌↔◌, IfOk, IfErr, IsErrOf, OnOk, OnErr};
ghost use Rattle.ct_faults.specs.Causes.{Rose};
ghost use Rattle.ct_faults.specs.Disk.{Runs, LeavesOnly};
ghost use Rattle.ct_pages.specs.Fresh.{fresh_slot, IsFinished, MayFinish};
ghost use Rattle.ct_pages.specs.Flips.{SameHead};
ghost use Rattle.ct_pages.specs.Slots.{IsCanonical, IsUnfinished};
ghost use Rattle.ct_recover.specs.Settling.{MaySettle, RunsFromSync, Settles, synced_by};

use ct_faults::Disk;
use ct_log::OpenFault;
use ct_pages::{Super, finish_disk, read_current};

/// Finishes an unfinished disk in which a crash leaves what reads give.
fn finish<D: Disk>(disk: &mut D) -> Result<Super, OpenFault>
    requires head { D.honest disk.old → SameHead (D.content disk.old) (D.images disk.old (D.clock disk.old)) }
    requires unfinished { D.honest disk.old → IsUnfinished (D.content disk.old 0) }
    requires room_calls { 11 ≤ D.room_calls disk.old }
    requires room_bytes { 57 ≤ D.room_bytes disk.old }
    ensures slot { IfOk result (λ slot. slot ≡ fresh_slot) }
    ensures err { IfErr result (λ e. e ≡ OpenFault.DiskFault) }
    ensures honest { D.honest disk.old ↔ D.honest disk.new }
    ensures finished { D.honest disk.old → OnOk result (IsFinished (D.content disk.old) (D.content disk.new)) }
    ensures durable { D.honest disk.old → OnOk result (LeavesOnly (D.content disk.new) (D.images disk.new (D.clock disk.new))) }
    ensures images { D.honest disk.old → Runs (D.clock disk.old) (D.clock disk.new) (D.images disk.old) (D.images disk.new) MayFinish }
    ensures later { D.faults disk.old ≤ D.faults disk.new }
    ensures fault { OnErr result (Rose (D.faults disk.old) (D.faults disk.new)) }
{
    match finish_disk(disk) {
        Ok(slot) => Ok(slot),
        Err(_) => Err(OpenFault::DiskFault),
    }
}

/// Makes a disk that is to be opened one in which a slot is current and a crash leaves what reads give, and answers the slot:
/// it syncs the disk, and finishes it where it is unfinished. It makes its own room.
///
/// Until the sync is done a crash leaves what it may have left before; from then on what reads gave, or, of an unfinished disk,
/// what the finishing may leave. After Ok it was done.
///
/// `Foreign` comes exactly where area 0 has another mark (offset 0), or an open slot that may not stand there (8 or 24); no
/// byte changes then. `DiskFault` comes only where the disk's count of faults rose.
pub fn settle<D: Disk>(disk: &mut D) -> Result<Super, OpenFault>
    ensures canonical { IfOk result IsCanonical }
    ensures honest { D.honest disk.old ↔ D.honest disk.new }
    ensures settles { D.honest disk.old → Settles (D.content disk.old) (D.content disk.new) result }
    ensures durable { D.honest disk.old → OnOk result (LeavesOnly (D.content disk.new) (D.images disk.new (D.clock disk.new))) }
    ensures images { D.honest disk.old → RunsFromSync (D.clock disk.old) (D.clock disk.new) (synced_by result (D.clock disk.new)) (D.images disk.old) (D.images disk.new) (MaySettle (D.content disk.old)) }
    ensures later { D.faults disk.old ≤ D.faults disk.new }
    ensures fault { IsErrOf result OpenFault.DiskFault → Rose (D.faults disk.old) (D.faults disk.new) }
{
    disk.ready(12, 57)?;
    disk.sync()?;
    match read_current(disk)? {
        Some(slot) => Ok(slot),
        None => finish(disk),
    }
}
