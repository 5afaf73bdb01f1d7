ghost use Rattle.std.specs.Prelude.{◌≡◌, ◌≤◌, ◌↔◌, IsErrOf};
ghost use Rattle.ct_faults.specs.Causes.{Rose};
ghost use Rattle.ct_faults.specs.Disk.{Same, Runs, TakesRoom};
ghost use Rattle.ct_pages.specs.Slots.{IsCanonical};
ghost use Rattle.ct_recover.specs.Reading.{ReadsCheckpoint, ReadsBeginning};

use ct_checkpoint::{CheckpointFault, read_checkpoint};
use ct_faults::Disk;
use ct_log::{OpenFault, read_area};
use ct_model::Db;
use ct_pages::Super;
use std::alloc::Global;

/// The database of the checkpoint of this length, in an area of these bytes.
fn checkpoint_in(alloc: Global, area: u8, size: u64, bytes: &[u8]) -> Result<Db, OpenFault>
    ensures { ReadsCheckpoint area size bytes.now result }
{
    if (bytes.len() as u64) < size {
        return Err(OpenFault::Foreign {
            area,
            offset: bytes.len() as u64,
        });
    }
    match read_checkpoint(alloc, &bytes[..size as usize]) {
        Ok(db) => Ok(db),
        Err(CheckpointFault::Stopped { offset }) => Err(OpenFault::Foreign { area, offset }),
        Err(CheckpointFault::Memory) => Err(OpenFault::Memory),
    }
}

/// The database with which a slot begins: that of its checkpoint, or the empty one where it names none.
///
/// `Foreign` comes exactly where the area is shorter than the stated length, with its own length as the offset, or where the
/// bytes up to that length are the checkpoint of no valid database, with the offset of the first fault. `DiskFault` comes only
/// where the disk's count of faults rose.
pub fn read_beginning<D: Disk>(alloc: Global, disk: &mut D, slot: Super) -> Result<Db, OpenFault>
    requires { IsCanonical slot }
    ensures reads { D.honest disk.old → ReadsBeginning slot (D.content disk.old) result }
    ensures honest { D.honest disk.old ↔ D.honest disk.new }
    ensures content { D.honest disk.old → D.content disk.new ≡ D.content disk.old }
    ensures images { D.honest disk.old → Runs (D.clock disk.old) (D.clock disk.new) (D.images disk.old) (D.images disk.new) Same }
    ensures room { TakesRoom 0 0 (D.room_calls disk.old) (D.room_bytes disk.old) (D.room_calls disk.new) (D.room_bytes disk.new) }
    ensures later { D.faults disk.old ≤ D.faults disk.new }
    ensures fault { IsErrOf result OpenFault.DiskFault → Rose (D.faults disk.old) (D.faults disk.new) }
{
    if slot.checkpoint == 0 {
        return Ok(Db::empty(alloc)?);
    }
    let bytes = read_area(alloc, disk, slot.checkpoint)?;
    checkpoint_in(alloc, slot.checkpoint, slot.length, bytes.as_bytes())
}
