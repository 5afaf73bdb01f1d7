ghost use Rattle.std.specs.Prelude.{◌≡◌, ◌<◌, ◌≤◌, ◌+◌, ◌^◌, ◌↔◌, length, take, IfOk, OnOk, IfErr, IsErrOf};
ghost use Rattle.ct_faults.specs.Causes.{Rose, HasCause};
ghost use Rattle.ct_faults.specs.Disk.{Changes, Same, IsWritten, MayTear, Runs, LeavesOnly, TakesRoom};
ghost use Rattle.ct_log.specs.Append.{TakesAtMost};
ghost use Rattle.ct_log.specs.Reading.{IsNoForeign};

use crate::OpenFault;
use ct_faults::{Disk, Failed};
use ct_types::Bin;
use std::alloc::Global;

/// Writes all the bytes into the area from an offset on, and syncs the disk. A crash before the end may tear the write;
/// after Ok it leaves what reads give.
///
/// `Failed` comes only where the disk's count of faults rose.
pub fn write_synced<D: Disk>(disk: &mut D, area: u8, at: u64, bytes: &[u8]) -> Result<(), Failed>
    requires area { area < 6 }
    requires at { D.honest disk.old → at ≤ length (D.content disk.old area) }
    requires end { at + length bytes.now < 2 ^ 62 }
    requires room_calls { 2 ≤ D.room_calls disk.old }
    requires room_bytes { length bytes.now ≤ D.room_bytes disk.old }
    ensures honest { D.honest disk.old ↔ D.honest disk.new }
    ensures written { D.honest disk.old → OnOk result (Changes area (IsWritten at bytes.now) (D.content disk.old) (D.content disk.new)) }
    ensures durable { D.honest disk.old → OnOk result (LeavesOnly (D.content disk.new) (D.images disk.new (D.clock disk.new))) }
    ensures rises { D.honest disk.old → D.clock disk.old < D.clock disk.new }
    ensures images { D.honest disk.old → Runs (D.clock disk.old) (D.clock disk.new) (D.images disk.old) (D.images disk.new) (Changes area (MayTear at (length bytes.now))) }
    ensures room { TakesAtMost 2 (length bytes.now) (D.room_calls disk.old) (D.room_bytes disk.old) (D.room_calls disk.new) (D.room_bytes disk.new) }
    ensures all_room { OnOk result (TakesRoom 2 (length bytes.now) (D.room_calls disk.old) (D.room_bytes disk.old) (D.room_calls disk.new) (D.room_bytes disk.new)) }
    ensures cause { HasCause (D.faults disk.old) (D.faults disk.new) result }
{
    disk.write_at(area, at, bytes)?;
    disk.sync()
}

/// Reads the area from its front into the buffer, until the buffer is full or a read gives nothing, and says how many bytes
/// it has. Of an honest disk's area it has so many of the first bytes as there are and as fit.
///
/// `Failed` comes only where the disk's count of faults rose; the buffer may then hold anything.
pub fn read_front<D: Disk>(disk: &mut D, area: u8, buf: &mut [u8]) -> Result<usize, Failed>
    requires { area < 6 }
    ensures bound { IfOk result (λ n. n ≤ length buf.new) }
    ensures gives { D.honest disk.old → IfOk result (λ n. take n buf.new ≡ take (length buf.old) (D.content disk.old area)) }
    ensures honest { D.honest disk.old ↔ D.honest disk.new }
    ensures content { D.honest disk.old → D.content disk.new ≡ D.content disk.old }
    ensures images { D.honest disk.old → Runs (D.clock disk.old) (D.clock disk.new) (D.images disk.old) (D.images disk.new) Same }
    ensures room { TakesRoom 0 0 (D.room_calls disk.old) (D.room_bytes disk.old) (D.room_calls disk.new) (D.room_bytes disk.new) }
    ensures cause { HasCause (D.faults disk.old) (D.faults disk.new) result }
{
    let mut filled = 0;
    while filled < buf.len() {
        let count = disk.read_at(area, filled as u64, &mut buf[filled..])?;
        if count == 0 {
            return Ok(filled);
        }
        filled += count;
    }
    Ok(filled)
}

/// The bytes of a whole area, as reads give them. Nothing is told of those of a disk that is not honest.
///
/// `DiskFault` comes only where the disk's count of faults rose. The answer is never `Foreign`.
pub fn read_area<D: Disk>(alloc: Global, disk: &mut D, area: u8) -> Result<Bin, OpenFault>
    requires { area < 6 }
    ensures bytes { D.honest disk.old → IfOk result (λ bytes. bytes ≡ D.content disk.old area) }
    ensures honest { D.honest disk.old ↔ D.honest disk.new }
    ensures content { D.honest disk.old → D.content disk.new ≡ D.content disk.old }
    ensures images { D.honest disk.old → Runs (D.clock disk.old) (D.clock disk.new) (D.images disk.old) (D.images disk.new) Same }
    ensures room { TakesRoom 0 0 (D.room_calls disk.old) (D.room_bytes disk.old) (D.room_calls disk.new) (D.room_bytes disk.new) }
    ensures later { D.faults disk.old ≤ D.faults disk.new }
    ensures fault { IsErrOf result OpenFault.DiskFault → Rose (D.faults disk.old) (D.faults disk.new) }
    ensures not_foreign { IfErr result IsNoForeign }
{
    let len = disk.len(area)? as usize;
    let mut bytes = vec![in alloc; 0; len]?;
    let filled = read_front(disk, area, &mut bytes)?;
    bytes.truncate(filled);
    Ok(Bin::from_vec(bytes))
}
