ghost use Rattle.std.specs.Prelude.{◌≡◌, ◌≢◌, ◌+◌, ◌%◌, ◌<◌, ◌≤◌, ◌^◌, ◌↔◌, length, IfOk, IfErr, IsErrOf, OnOk, OnErr};
ghost use Rattle.ct_faults.specs.Causes.{HasCause, Rose};
ghost use Rattle.ct_faults.specs.Disk.{Runs, LeavesOnly};
ghost use Rattle.ct_log.specs.Reading.{IsNoForeign};
ghost use Rattle.ct_pages.specs.Slots.{IsCanonical, Names};
ghost use Rattle.ct_found.specs.Found.{Stands};
ghost use Rattle.ct_recover.specs.Opening.{StandsBy, StaysFor};
ghost use Rattle.ct_recover.specs.Condensing.{next_slot, IsApart, IsCondensed, KeepsNamedBy, MayCondense};

use ct_checkpoint::put_db;
use ct_faults::{Disk, DiskFault};
use ct_log::OpenFault;
use ct_model::Db;
use ct_pages::{Super, flip, start, write_piece};
use std::alloc::Global;

/// The greatest length of an area.
const MOST_BYTES: u64 = 1 << 62;

/// The slot that names a new checkpoint of this length and a new log.
fn next_of(slot: Super, size: u64) -> Super
    requires { IsCanonical slot }
    ensures { result ≡ next_slot slot size }
{
    Super {
        format: 1,
        turn: (slot.turn + 1) % 4,
        checkpoint: if slot.checkpoint == 1 { 2 } else { 1 },
        first: 12 - slot.first - slot.second,
        second: 0,
        length: size,
    }
}

/// Writes a checkpoint and an empty log into areas that the current slot does not name, and makes the slot that names them
/// current.
fn lay_down<D: Disk>(disk: &mut D, slot: Super, next: Super, bytes: &[u8]) -> Result<(), DiskFault>
    requires current { D.honest disk.old → Names (D.content disk.old 0) slot }
    requires only { D.honest disk.old → LeavesOnly (D.content disk.old) (D.images disk.old (D.clock disk.old)) }
    requires apart { IsApart slot next }
    requires canonical { IsCanonical next }
    requires turn { next.turn ≡ (slot.turn + 1) % 4 }
    requires short { length bytes.now < 2 ^ 62 }
    requires room_calls { 13 ≤ D.room_calls disk.old }
    requires room_bytes { length bytes.now + 19 ≤ D.room_bytes disk.old }
    ensures honest { D.honest disk.old ↔ D.honest disk.new }
    ensures laid { D.honest disk.old → OnOk result (IsCondensed next bytes.now (D.content disk.new)) }
    ensures durable { D.honest disk.old → OnOk result (LeavesOnly (D.content disk.new) (D.images disk.new (D.clock disk.new))) }
    ensures images { D.honest disk.old → Runs (D.clock disk.old) (D.clock disk.new) (D.images disk.old) (D.images disk.new) (MayCondense slot next bytes.now) }
    ensures cause { HasCause (D.faults disk.old) (D.faults disk.new) result }
{
    start(disk, next.checkpoint)?;
    write_piece(disk, next.checkpoint, 0, bytes)?;
    start(disk, next.first)?;
    flip(disk, slot, next)
}

/// Writes the database of a disk with two logs as a checkpoint, with an empty log behind it, and answers the slot that names
/// these. It makes its own room.
///
/// A crash leaves what reads give, as the call begins and after Ok; at each moment it leaves a disk that stands for the database.
/// No area that the old slot names changes but area 0, also where it fails. `DiskFault` comes only where the disk's count of faults rose.
pub fn condense<D: Disk>(
    alloc: Global,
    disk: &mut D,
    slot: Super,
    db: &Db,
) -> Result<Super, OpenFault>
    requires canonical { IsCanonical slot }
    requires two { slot.second ≢ 0 }
    requires stands { D.honest disk.old → StandsBy slot (D.content disk.old) db.now }
    requires only { D.honest disk.old → LeavesOnly (D.content disk.old) (D.images disk.old (D.clock disk.old)) }
    ensures canonical { IfOk result IsCanonical }
    ensures single { IfOk result (λ next. next.second ≡ 0) }
    ensures honest { D.honest disk.old ↔ D.honest disk.new }
    ensures stands { D.honest disk.old → IfOk result (λ next. Stands next (D.content disk.new) db.now 0 1) }
    ensures durable { D.honest disk.old → OnOk result (LeavesOnly (D.content disk.new) (D.images disk.new (D.clock disk.new))) }
    ensures images { D.honest disk.old → Runs (D.clock disk.old) (D.clock disk.new) (D.images disk.old) (D.images disk.new) (StaysFor db.now) }
    ensures keeps { D.honest disk.old → KeepsNamedBy slot (D.content disk.old) (D.content disk.new) }
    ensures not_foreign { IfErr result IsNoForeign }
    ensures later { D.faults disk.old ≤ D.faults disk.new }
    ensures fault { IsErrOf result OpenFault.DiskFault → Rose (D.faults disk.old) (D.faults disk.new) }
{
    let checkpoint = put_db(alloc, db)?;
    let bytes = checkpoint.as_bytes();
    let size = bytes.len() as u64;
    if size >= MOST_BYTES {
        return Err(OpenFault::Memory);
    }
    disk.ready(13, size + 19)?;
    let next = next_of(slot, size);
    match lay_down(disk, slot, next, bytes) {
        Ok(()) => Ok(next),
        Err(_) => Err(OpenFault::DiskFault),
    }
}
