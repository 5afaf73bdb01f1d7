ghost use Rattle.std.specs.Prelude.{◌≡◌, ◌<◌, ◌≤◌, ◌+◌, ◌↔◌, ℕ, IfOk, IfErr, IsErrOf, OnOk, MatchResult};
ghost use Rattle.ct_faults.specs.Causes.{Rose};
ghost use Rattle.ct_faults.specs.Disk.{Same, Runs};
ghost use Rattle.ct_model.specs.declared.db.Db.{Db as ADb};
ghost use Rattle.ct_pages.specs.Slots.{IsCanonical};
ghost use Rattle.ct_found.specs.Found.{StandsFor, Finds};
ghost use Rattle.ct_found.specs.Foreign.{IsForeign};
ghost use Rattle.ct_recover.specs.Volume.{IsSteady};
ghost use Rattle.ct_recover.specs.Opening.{KeepsAreas, Opens};
ghost use Rattle.ct_recover.specs.Settling.{RunsFromSync, synced_by};

use crate::condensing::condense;
use crate::database::read_named;
use crate::settling::settle;
use ct_faults::Disk;
use ct_log::OpenFault;
use ct_model::Db;
use ct_pages::Super;
use std::alloc::Global;

/// A database for which a disk stands, the slot by which it does, and how many bytes of its one log are used.
#[derive(Debug, Drop)]
pub struct Ready {
    pub db: Db,
    pub current: Super,
    pub used: u64,
}

/// Opens a disk in place: it is settled and read, and a database of two logs is written as a checkpoint. It makes its own room.
pub fn make_ready<D: Disk>(alloc: Global, disk: &mut D) -> Result<Ready, OpenFault>
    ensures canonical { IfOk result (λ ready. IsCanonical ready.current) }
    ensures single { IfOk result (λ ready. ready.current.second ≡ 0) }
    ensures used { IfOk result (λ ready. 0 < ready.used) }
    ensures honest { D.honest disk.old ↔ D.honest disk.new }
    ensures opens { D.honest disk.old → Opens (D.content disk.old) (D.content disk.new) (D.images disk.new (D.clock disk.new)) result }
    ensures finds { D.honest disk.old → IfOk result (λ ready. Finds (D.content disk.old) ready.db ready.used) }
    ensures leaves { D.honest disk.old → OnOk result (KeepsAreas (D.content disk.old) (D.content disk.new)) }
    ensures images { D.honest disk.old → (db : ADb) → StandsFor (D.content disk.old) db → RunsFromSync (D.clock disk.old) (D.clock disk.new) (synced_by result (D.clock disk.new)) (D.images disk.old) (D.images disk.new) (λ image. StandsFor image db) }
    ensures foreign_images { D.honest disk.old → (area offset : ℕ) → IsForeign (D.content disk.old) area offset → Runs (D.clock disk.old) (D.clock disk.new) (D.images disk.old) (D.images disk.new) Same }
    ensures later { D.faults disk.old ≤ D.faults disk.new }
    ensures fault { IsErrOf result OpenFault.DiskFault → Rose (D.faults disk.old) (D.faults disk.new) }
{
    let slot = settle(disk)?;
    let found = read_named(alloc, disk, slot)?;
    if slot.second == 0 {
        return Ok(Ready {
            db: found.db,
            current: slot,
            used: found.used,
        });
    }
    let next = condense(alloc, disk, slot, &found.db)?;
    Ok(Ready {
        db: found.db,
        current: next,
        used: 1,
    })
}

/// A disk that is open: the database for which it stands, the slot by which it does, and how many bytes of its one log are used.
#[derive(Debug)]
pub struct Opened<D: Disk> {
    pub disk: D,
    pub db: Db,
    pub current: Super,
    pub used: u64,
}

/// Opens a disk: it is settled and read, and a database of two logs is written as a checkpoint. It makes its own room. A disk that
/// is not opened is handed back.
///
/// The database is that for which the disk stood, and the disk is steady at it. The slot names one log, of which at least one byte
/// is used, whatever disk it is: the bytes that the disk's one log had, or 1 where it was unfinished or had two logs. A disk of one
/// log is left as it was; of one of two logs each area that its slot named stays, but area 0; areas 1, 2, 4 and 5 of an unfinished
/// one stay.
///
/// An opening begins with a sync. Until it is done a crash leaves what it may have left before; from then on, at each moment, also
/// where the opening fails later, a disk that stands for the database. After Ok it was done. Of a foreign disk a crash leaves only
/// what it may have left before.
///
/// `Foreign` comes exactly where the disk stood for no database, with the area and the offset of the first fault; no byte changes
/// then. `DiskFault` comes only where the disk's count of faults rose.
pub fn open_db<D: Disk>(alloc: Global, disk: D) -> Result<Opened<D>, (D, OpenFault)>
    ensures canonical { IfOk result (λ opened. IsCanonical opened.current) }
    ensures single { IfOk result (λ opened. opened.current.second ≡ 0) }
    ensures used { IfOk result (λ opened. 0 < opened.used) }
    ensures honest { MatchResult result (λ opened. D.honest disk ↔ D.honest opened.disk) (λ e. D.honest disk ↔ D.honest e.0) }
    ensures opens { D.honest disk → IfOk result (λ opened. StandsFor (D.content disk) opened.db × IsSteady opened.current opened.used (D.content opened.disk) (D.images opened.disk (D.clock opened.disk)) opened.db) }
    ensures finds { D.honest disk → IfOk result (λ opened. Finds (D.content disk) opened.db opened.used) }
    ensures foreign { D.honest disk → IfErr result (λ e. (area offset : ℕ) → e.1 ≡ OpenFault.Foreign area offset → IsForeign (D.content disk) area offset × (D.content e.0 ≡ D.content disk)) }
    ensures leaves { D.honest disk → IfOk result (λ opened. KeepsAreas (D.content disk) (D.content opened.disk)) }
    ensures images { D.honest disk → (db : ADb) → StandsFor (D.content disk) db → MatchResult result
        (λ opened. RunsFromSync (D.clock disk) (D.clock opened.disk) (D.clock opened.disk) (D.images disk) (D.images opened.disk) (λ image. StandsFor image db))
        (λ e. RunsFromSync (D.clock disk) (D.clock e.0) (D.clock e.0 + 1) (D.images disk) (D.images e.0) (λ image. StandsFor image db)) }
    ensures foreign_images { D.honest disk → (area offset : ℕ) → IsForeign (D.content disk) area offset → MatchResult result (λ opened. Runs (D.clock disk) (D.clock opened.disk) (D.images disk) (D.images opened.disk) Same) (λ e. Runs (D.clock disk) (D.clock e.0) (D.images disk) (D.images e.0) Same) }
    ensures later { MatchResult result (λ opened. D.faults disk ≤ D.faults opened.disk) (λ e. D.faults disk ≤ D.faults e.0) }
    ensures fault { IfErr result (λ e. e.1 ≡ OpenFault.DiskFault → Rose (D.faults disk) (D.faults e.0)) }
{
    let mut disk = disk;
    match make_ready(alloc, &mut disk) {
        Ok(ready) => Ok(Opened {
            disk,
            db: ready.db,
            current: ready.current,
            used: ready.used,
        }),
        Err(fault) => Err((disk, fault)),
    }
}
