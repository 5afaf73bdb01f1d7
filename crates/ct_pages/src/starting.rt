ghost use Rattle.std.specs.Prelude.{◌<◌, ◌≤◌, ◌+◌, ◌^◌, ◌↔◌, length, OnOk};
ghost use Rattle.ct_faults.specs.Causes.{HasCause};
ghost use Rattle.ct_faults.specs.Disk.{Changes, IsWritten, MayTear, Runs, LeavesOnly, TakesRoom};
ghost use Rattle.ct_log.specs.Append.{TakesAtMost};
ghost use Rattle.ct_pages.specs.Areas.{IsSpare, KeepsNamed, Anything, IsStarted};

use crate::slot::CLOSED;
use ct_faults::{Disk, DiskFault, Failed};
use ct_log::write_synced;

/// The least area of a log. Those below it, but for area 0, are of checkpoints.
const FIRST_LOG_AREA: u8 = 3;

/// Cuts an area to nothing, and makes one of a log a closed gate, which it syncs.
fn restart<D: Disk>(disk: &mut D, area: u8) -> Result<(), Failed>
    requires area { area < 6 }
    requires room_calls { 3 ≤ D.room_calls disk.old }
    requires room_bytes { 1 ≤ D.room_bytes disk.old }
    ensures honest { D.honest disk.old ↔ D.honest disk.new }
    ensures started { D.honest disk.old → OnOk result (Changes area (IsStarted area) (D.content disk.old) (D.content disk.new)) }
    ensures durable { D.honest disk.old → 3 ≤ area → OnOk result (LeavesOnly (D.content disk.new) (D.images disk.new (D.clock disk.new))) }
    ensures rises { D.honest disk.old → D.clock disk.old < D.clock disk.new }
    ensures images { D.honest disk.old → Runs (D.clock disk.old) (D.clock disk.new) (D.images disk.old) (D.images disk.new) (Changes area Anything) }
    ensures room { TakesAtMost 3 1 (D.room_calls disk.old) (D.room_bytes disk.old) (D.room_calls disk.new) (D.room_bytes disk.new) }
    ensures cause { HasCause (D.faults disk.old) (D.faults disk.new) result }
{
    disk.cut(area, 0)?;
    if area < FIRST_LOG_AREA {
        return Ok(());
    }
    write_synced(disk, area, 0, &[CLOSED])
}

/// Makes an area from 1 to 5 a new one: one of a log (3 to 5) an empty log, which is synced, and one of a checkpoint (1 or
/// 2) empty, which is not.
///
/// No current slot of an image that a crash may leave as the call begins names the area. A slot that is open but not the
/// current one may. `DiskFault` comes only where the disk's count of faults rose.
pub fn start<D: Disk>(disk: &mut D, area: u8) -> Result<(), DiskFault>
    requires above { 1 ≤ area }
    requires area { area < 6 }
    requires spare { D.honest disk.old → IsSpare area (D.images disk.old (D.clock disk.old)) }
    requires room_calls { 3 ≤ D.room_calls disk.old }
    requires room_bytes { 1 ≤ D.room_bytes disk.old }
    ensures honest { D.honest disk.old ↔ D.honest disk.new }
    ensures started { D.honest disk.old → OnOk result (Changes area (IsStarted area) (D.content disk.old) (D.content disk.new)) }
    ensures durable { D.honest disk.old → 3 ≤ area → OnOk result (LeavesOnly (D.content disk.new) (D.images disk.new (D.clock disk.new))) }
    ensures rises { D.honest disk.old → D.clock disk.old < D.clock disk.new }
    ensures images { D.honest disk.old → Runs (D.clock disk.old) (D.clock disk.new) (D.images disk.old) (D.images disk.new) (Changes area Anything) }
    ensures named { D.honest disk.old → Runs (D.clock disk.old) (D.clock disk.new) (D.images disk.old) (D.images disk.new) KeepsNamed }
    ensures room { TakesAtMost 3 1 (D.room_calls disk.old) (D.room_bytes disk.old) (D.room_calls disk.new) (D.room_bytes disk.new) }
    ensures cause { HasCause (D.faults disk.old) (D.faults disk.new) result }
{
    restart(disk, area)?;
    Ok(())
}

/// Writes bytes of a checkpoint into an area from 1 to 5, from an offset on that is at most its length. They are not
/// synced.
///
/// No current slot of an image that a crash may leave as the call begins names the area, so that no byte changes that one
/// names. `DiskFault` comes only where the disk's count of faults rose.
pub fn write_piece<D: Disk>(disk: &mut D, area: u8, at: u64, bytes: &[u8]) -> Result<(), DiskFault>
    requires above { 1 ≤ area }
    requires area { area < 6 }
    requires spare { D.honest disk.old → IsSpare area (D.images disk.old (D.clock disk.old)) }
    requires at { D.honest disk.old → at ≤ length (D.content disk.old area) }
    requires end { at + length bytes.now < 2 ^ 62 }
    requires room_calls { 1 ≤ D.room_calls disk.old }
    requires room_bytes { length bytes.now ≤ D.room_bytes disk.old }
    ensures honest { D.honest disk.old ↔ D.honest disk.new }
    ensures written { D.honest disk.old → OnOk result (Changes area (IsWritten at bytes.now) (D.content disk.old) (D.content disk.new)) }
    ensures rises { D.honest disk.old → D.clock disk.old < D.clock disk.new }
    ensures images { D.honest disk.old → Runs (D.clock disk.old) (D.clock disk.new) (D.images disk.old) (D.images disk.new) (Changes area (MayTear at (length bytes.now))) }
    ensures named { D.honest disk.old → Runs (D.clock disk.old) (D.clock disk.new) (D.images disk.old) (D.images disk.new) KeepsNamed }
    ensures room { TakesRoom 1 (length bytes.now) (D.room_calls disk.old) (D.room_bytes disk.old) (D.room_calls disk.new) (D.room_bytes disk.new) }
    ensures cause { HasCause (D.faults disk.old) (D.faults disk.new) result }
{
    disk.write_at(area, at, bytes)?;
    Ok(())
}
