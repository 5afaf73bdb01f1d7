ghost use Rattle.std.specs.Prelude.{◌≡◌, ◌<◌, ◌≤◌, ◌↔◌, IfOk, IsErrOf};
ghost use Rattle.ct_faults.specs.Causes.{Rose};
ghost use Rattle.ct_faults.specs.Disk.{Same, Runs, TakesRoom};
ghost use Rattle.ct_model.specs.Apply.{no_db};
ghost use Rattle.ct_pages.specs.Slots.{IsCanonical};
ghost use Rattle.ct_recover.specs.Reading.{ReadsNamed, ReadsDisk};

use crate::beginning::read_beginning;
use crate::reading::{Found, replay_logs};
use ct_faults::Disk;
use ct_log::OpenFault;
use ct_model::Db;
use ct_pages::{Super, read_current};
use ct_types::Memory;
use std::alloc::Global;

/// What the areas that a slot names make: the database of its checkpoint, or the empty one, with the entries of its logs
/// applied. At least one byte of the last log is used, its closed gate, whatever disk it is.
pub fn read_named<D: Disk>(alloc: Global, disk: &mut D, slot: Super) -> Result<Found, OpenFault>
    requires { IsCanonical slot }
    ensures reads { D.honest disk.old → ReadsNamed slot (D.content disk.old) result }
    ensures used { IfOk result (λ found. 0 < found.used) }
    ensures honest { D.honest disk.old ↔ D.honest disk.new }
    ensures content { D.honest disk.old → D.content disk.new ≡ D.content disk.old }
    ensures images { D.honest disk.old → Runs (D.clock disk.old) (D.clock disk.new) (D.images disk.old) (D.images disk.new) Same }
    ensures room { TakesRoom 0 0 (D.room_calls disk.old) (D.room_bytes disk.old) (D.room_calls disk.new) (D.room_bytes disk.new) }
    ensures later { D.faults disk.old ≤ D.faults disk.new }
    ensures fault { IsErrOf result OpenFault.DiskFault → Rose (D.faults disk.old) (D.faults disk.new) }
{
    let start = read_beginning(alloc, disk, slot)?;
    replay_logs(alloc, disk, slot, start)
}

/// What an unfinished disk stands for.
fn nothing_found(alloc: Global) -> Result<Found, Memory>
    ensures { IfOk result (λ found. (found.db ≡ no_db) × (found.entries ≡ 0) × (found.used ≡ 0)) }
{
    Ok(Found {
        db: Db::empty(alloc)?,
        entries: 0,
        used: 0,
    })
}

/// Reads the database for which a disk stands, and writes nothing. That of an unfinished disk is the empty one, with no entry
/// and no used byte. Nothing is told of the database of a disk that is not honest.
///
/// `Foreign` comes exactly where the disk stands for no database, with the area and the offset of the first fault: area 0 has
/// another mark (offset 0), or an open slot that may not stand there (8 or 24); or the checkpoint, or one of the logs, breaks
/// off. `DiskFault` comes only where the disk's count of faults rose.
pub fn read_db<D: Disk>(alloc: Global, disk: &mut D) -> Result<Found, OpenFault>
    ensures reads { D.honest disk.old → ReadsDisk (D.content disk.old) result }
    ensures honest { D.honest disk.old ↔ D.honest disk.new }
    ensures content { D.honest disk.old → D.content disk.new ≡ D.content disk.old }
    ensures images { D.honest disk.old → Runs (D.clock disk.old) (D.clock disk.new) (D.images disk.old) (D.images disk.new) Same }
    ensures room { TakesRoom 0 0 (D.room_calls disk.old) (D.room_bytes disk.old) (D.room_calls disk.new) (D.room_bytes disk.new) }
    ensures later { D.faults disk.old ≤ D.faults disk.new }
    ensures fault { IsErrOf result OpenFault.DiskFault → Rose (D.faults disk.old) (D.faults disk.new) }
{
    match read_current(disk)? {
        None => Ok(nothing_found(alloc)?),
        Some(slot) => read_named(alloc, disk, slot),
    }
}
