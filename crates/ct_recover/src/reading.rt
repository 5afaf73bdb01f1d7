ghost use Rattle.std.specs.Prelude.{◌≡◌, ◌*◌, ◌<◌, ◌≤◌, ◌↔◌, IfOk, IsErrOf};
ghost use Rattle.ct_faults.specs.Causes.{Rose};
ghost use Rattle.ct_faults.specs.Disk.{Same, Runs, TakesRoom};
ghost use Rattle.ct_pages.specs.Slots.{IsCanonical};
ghost use Rattle.ct_found.specs.Found.{Begins};
ghost use Rattle.ct_recover.specs.Reading.{ReplaysArea, ReadsNamed};

use ct_faults::Disk;
use ct_log::{OpenFault, read_area};
use ct_model::Db;
use ct_pages::Super;
use ct_replay::{LogFault, Replayed, replay_log};
use std::alloc::Global;

/// What a disk stands for.
#[derive(Debug, Drop)]
pub struct Found {
    pub db: Db,
    /// How many entries the named logs have.
    pub entries: u64,
    /// How many bytes of the last log are used.
    pub used: u64,
}

/// What the log in an area makes of a database.
fn replay_area<D: Disk>(
    alloc: Global,
    disk: &mut D,
    area: u8,
    start: Db,
) -> Result<Replayed, OpenFault>
    requires { area < 6 }
    ensures reads { D.honest disk.old → ReplaysArea area start (D.content disk.old area) result }
    ensures few { IfOk result (λ made. made.records * 5 < made.used) }
    ensures honest { D.honest disk.old ↔ D.honest disk.new }
    ensures content { D.honest disk.old → D.content disk.new ≡ D.content disk.old }
    ensures images { D.honest disk.old → Runs (D.clock disk.old) (D.clock disk.new) (D.images disk.old) (D.images disk.new) Same }
    ensures room { TakesRoom 0 0 (D.room_calls disk.old) (D.room_bytes disk.old) (D.room_calls disk.new) (D.room_bytes disk.new) }
    ensures later { D.faults disk.old ≤ D.faults disk.new }
    ensures fault { IsErrOf result OpenFault.DiskFault → Rose (D.faults disk.old) (D.faults disk.new) }
{
    let bytes = read_area(alloc, disk, area)?;
    match replay_log(alloc, start, bytes.as_bytes()) {
        Ok(made) => Ok(made),
        Err(LogFault::Broken { offset }) => Err(OpenFault::Foreign { area, offset }),
        Err(LogFault::Memory) => Err(OpenFault::Memory),
    }
}

/// What the logs that a slot names make of the database with which it begins.
///
/// `Foreign` comes exactly where the replay of the first log breaks off, or that of the second, with its area and the
/// offset. `DiskFault` comes only where the disk's count of faults rose.
pub fn replay_logs<D: Disk>(
    alloc: Global,
    disk: &mut D,
    slot: Super,
    start: Db,
) -> Result<Found, OpenFault>
    requires canonical { IsCanonical slot }
    requires begins { D.honest disk.old → Begins slot (D.content disk.old) start }
    ensures reads { D.honest disk.old → ReadsNamed slot (D.content disk.old) result }
    ensures used { IfOk result (λ found. 0 < found.used) }
    ensures honest { D.honest disk.old ↔ D.honest disk.new }
    ensures content { D.honest disk.old → D.content disk.new ≡ D.content disk.old }
    ensures images { D.honest disk.old → Runs (D.clock disk.old) (D.clock disk.new) (D.images disk.old) (D.images disk.new) Same }
    ensures room { TakesRoom 0 0 (D.room_calls disk.old) (D.room_bytes disk.old) (D.room_calls disk.new) (D.room_bytes disk.new) }
    ensures later { D.faults disk.old ≤ D.faults disk.new }
    ensures fault { IsErrOf result OpenFault.DiskFault → Rose (D.faults disk.old) (D.faults disk.new) }
{
    let first = replay_area(alloc, disk, slot.first, start)?;
    if slot.second == 0 {
        return Ok(Found {
            db: first.db,
            entries: first.records,
            used: first.used,
        });
    }
    let last = replay_area(alloc, disk, slot.second, first.db)?;
    Ok(Found {
        db: last.db,
        entries: first.records + last.records,
        used: last.used,
    })
}
