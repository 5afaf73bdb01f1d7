//! What disks stand for: openings, readings and appends.

ghost use Rattle.std.specs.Prelude.{◌<◌};
ghost use Rattle.ct_pages.specs.Slots.{IsCanonical};
ghost use Rattle.ct_replay.specs.Replay.{Adds};
ghost use Rattle.ct_recover.specs.Volume.{IsSteady};

use crate::calls::Answer;
use crate::stop::Stop;
use ct_faults::Disk;
use ct_log::OpenFault;
use ct_model::Db;
use ct_pages::Super;
use ct_recover::{Found, Opened, Volume, VolumeError, open_db, read_db};
use ct_replay::added;
use ct_types::{Entry, Memory};
use std::alloc::Global;

/// What a disk tells that is not opened.
fn told(alloc: Global, fault: OpenFault) -> Result<Answer, Stop> {
    match fault {
        OpenFault::Foreign { area, offset } => {
            let text = format!(in alloc; "Foreign area {area} offset {offset}")?;
            Ok(Answer::Text(text))
        }
        OpenFault::DiskFault => Ok(Answer::Failed),
        OpenFault::Memory => Err(Stop),
    }
}

/// What an opened disk tells: its used bytes, its slot and its database.
fn opened_text(alloc: Global, db: &Db, current: Super, used: u64) -> Result<Answer, Stop> {
    let text = format!(in alloc; "used {used}, {current:?}, {db:?}")?;
    Ok(Answer::Text(text))
}

/// Opens a disk.
pub(crate) fn open<D: Disk>(alloc: Global, disk: D) -> (D, Result<Answer, Stop>) {
    match open_db(alloc, disk) {
        Ok(opened) => {
            let Opened {
                disk,
                db,
                current,
                used,
            } = opened;
            (disk, opened_text(alloc, &db, current, used))
        }
        Err((disk, fault)) => (disk, told(alloc, fault)),
    }
}

/// What the reading of a disk tells: the version of its database, its entries and its used bytes.
fn found_text(alloc: Global, found: &Found) -> Result<Answer, Stop> {
    let version = found.db.version;
    let Found {
        db: _,
        entries,
        used,
    } = found;
    let text = format!(in alloc; "version {version}, entries {entries}, used {used}")?;
    Ok(Answer::Text(text))
}

/// Reads what a disk stands for.
pub(crate) fn find<D: Disk>(alloc: Global, disk: &mut D) -> Result<Answer, Stop> {
    match read_db(alloc, disk) {
        Ok(found) => found_text(alloc, &found),
        Err(fault) => told(alloc, fault),
    }
}

/// The disk of an opened one.
fn given_up<D: Disk>(opened: Opened<D>) -> D {
    let Opened {
        disk,
        db: _,
        current: _,
        used: _,
    } = opened;
    disk
}

/// What an append tells of a payload that adds nothing to the database.
fn none_text(alloc: Global) -> Result<Answer, Stop> {
    Ok(Answer::Text(format!(in alloc; "no entry that applies")?))
}

/// What an append tells: the used bytes after it.
fn appended_text(alloc: Global, used: u64, made: Result<(), VolumeError>) -> Result<Answer, Stop> {
    match made {
        Ok(()) => Ok(Answer::Text(format!(in alloc; "used {used}")?)),
        Err(VolumeError::LogFull { used, needed }) => {
            let text = format!(in alloc; "LogFull used {used} needed {needed}")?;
            Ok(Answer::Text(text))
        }
        Err(VolumeError::DiskFault) => Ok(Answer::Failed),
        Err(VolumeError::Memory) => Err(Stop),
    }
}

/// Appends an entry that a payload adds to the database of an opened disk.
#[tactic(auto, using(crate::proofs::Fits::added_fits, crate::proofs::Fits::added_is_short, crate::proofs::Fits::may_take))]
fn append_entry<D: Disk>(
    alloc: Global,
    opened: Opened<D>,
    payload: &[u8],
    entry: &Entry,
) -> (D, Result<Answer, Stop>)
    requires canonical { IsCanonical opened.current }
    requires used { 0 < opened.used }
    requires steady { D.honest opened.disk → IsSteady opened.current opened.used (D.content opened.disk) (D.images opened.disk (D.clock opened.disk)) opened.db }
    requires adds { Adds opened.db payload.now entry.now }
{
    let Opened {
        disk,
        db: _,
        current,
        used,
    } = opened;
    let mut volume = Volume::new(disk, current, used);
    let made = volume.append(alloc, entry);
    let answer = appended_text(alloc, volume.used(), made);
    (volume.into_disk(), answer)
}

/// Appends the entry of a payload to an opened disk.
fn append_to<D: Disk>(alloc: Global, opened: Opened<D>, payload: &[u8]) -> (D, Result<Answer, Stop>)
    requires canonical { IsCanonical opened.current }
    requires steady { D.honest opened.disk → IsSteady opened.current opened.used (D.content opened.disk) (D.images opened.disk (D.clock opened.disk)) opened.db }
{
    if opened.used == 0 {
        return (given_up(opened), Err(Stop));
    }
    match added(alloc, &opened.db, payload) {
        Ok(Some(entry)) => append_entry(alloc, opened, payload, &entry),
        Ok(None) => (given_up(opened), none_text(alloc)),
        Err(Memory) => (given_up(opened), Err(Stop)),
    }
}

/// Opens a disk, and appends the entry of a payload.
pub(crate) fn append<D: Disk>(alloc: Global, disk: D, payload: &[u8]) -> (D, Result<Answer, Stop>) {
    match open_db(alloc, disk) {
        Ok(opened) => append_to(alloc, opened, payload),
        Err((disk, fault)) => (disk, told(alloc, fault)),
    }
}
