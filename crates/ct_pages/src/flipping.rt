ghost use Rattle.std.specs.Prelude.{◌≡◌, ◌<◌, ◌≤◌, ◌+◌, ◌%◌, ◌↔◌, length, IfOk, OnOk, IsTrue};
ghost use Rattle.ct_faults.specs.Causes.{HasCause};
ghost use Rattle.ct_faults.specs.Disk.{Changes, Same, Runs, LeavesOnly, TakesRoom};
ghost use Rattle.ct_log.specs.Append.{TakesAtMost};
ghost use Rattle.ct_log.specs.Reading.{IsOpen};
ghost use Rattle.ct_pages.specs.Slots.{IsCanonical, slot_at, Names};
ghost use Rattle.ct_pages.specs.Flips.{SameHead, IsFlipped, MayFlip, IsShut, MayShut, IsPut, MayPut};

use crate::Super;
use crate::slot::{CLOSED, OPEN, offset, spell};
use ct_faults::{Disk, DiskFault, Failed};
use ct_log::write_synced;

/// Whether slot 0 or 1 is open.
fn is_open<D: Disk>(disk: &mut D, place: u8) -> Result<bool, Failed>
    requires place { place < 2 }
    requires long { D.honest disk.old → 40 ≤ length (D.content disk.old 0) }
    ensures gives { D.honest disk.old → IfOk result (λ answer. IsTrue answer ↔ IsOpen (slot_at place (D.content disk.old 0))) }
    ensures honest { D.honest disk.old ↔ D.honest disk.new }
    ensures content { D.honest disk.old → D.content disk.new ≡ D.content disk.old }
    ensures images { D.honest disk.old → Runs (D.clock disk.old) (D.clock disk.new) (D.images disk.old) (D.images disk.new) Same }
    ensures room { TakesRoom 0 0 (D.room_calls disk.old) (D.room_bytes disk.old) (D.room_calls disk.new) (D.room_bytes disk.new) }
    ensures cause { HasCause (D.faults disk.old) (D.faults disk.new) result }
{
    let mut gate = [CLOSED];
    disk.read_at(0, offset(place), &mut gate)?;
    Ok(gate[0] == OPEN)
}

/// Closes slot 0 or 1, where it is open, and syncs that.
fn close_slot<D: Disk>(disk: &mut D, place: u8) -> Result<(), Failed>
    requires place { place < 2 }
    requires head { D.honest disk.old → SameHead (D.content disk.old) (D.images disk.old (D.clock disk.old)) }
    requires long { D.honest disk.old → 40 ≤ length (D.content disk.old 0) }
    requires room_calls { 2 ≤ D.room_calls disk.old }
    requires room_bytes { 1 ≤ D.room_bytes disk.old }
    ensures honest { D.honest disk.old ↔ D.honest disk.new }
    ensures closed { D.honest disk.old → OnOk result (Changes 0 (IsShut place) (D.content disk.old) (D.content disk.new)) }
    ensures head { D.honest disk.old → OnOk result (SameHead (D.content disk.new) (D.images disk.new (D.clock disk.new))) }
    ensures images { D.honest disk.old → Runs (D.clock disk.old) (D.clock disk.new) (D.images disk.old) (D.images disk.new) (Changes 0 (MayShut place)) }
    ensures room { TakesAtMost 2 1 (D.room_calls disk.old) (D.room_bytes disk.old) (D.room_calls disk.new) (D.room_bytes disk.new) }
    ensures cause { HasCause (D.faults disk.old) (D.faults disk.new) result }
{
    if is_open(disk, place)? {
        write_synced(disk, 0, offset(place), &[CLOSED])?;
    }
    Ok(())
}

/// Writes a slot behind its closed gate, and opens it, each with a sync.
pub fn put_slot<D: Disk>(disk: &mut D, place: u8, slot: Super) -> Result<(), Failed>
    requires place { place < 2 }
    requires head { D.honest disk.old → SameHead (D.content disk.old) (D.images disk.old (D.clock disk.old)) }
    requires long { D.honest disk.old → 40 ≤ length (D.content disk.old 0) }
    requires closed { D.honest disk.old → ¬ IsOpen (slot_at place (D.content disk.old 0)) }
    requires room_calls { 4 ≤ D.room_calls disk.old }
    requires room_bytes { 16 ≤ D.room_bytes disk.old }
    ensures honest { D.honest disk.old ↔ D.honest disk.new }
    ensures put { D.honest disk.old → OnOk result (Changes 0 (IsPut place slot) (D.content disk.old) (D.content disk.new)) }
    ensures durable { D.honest disk.old → OnOk result (LeavesOnly (D.content disk.new) (D.images disk.new (D.clock disk.new))) }
    ensures rises { D.honest disk.old → D.clock disk.old < D.clock disk.new }
    ensures images { D.honest disk.old → Runs (D.clock disk.old) (D.clock disk.new) (D.images disk.old) (D.images disk.new) (Changes 0 (MayPut place slot)) }
    ensures room { TakesAtMost 4 16 (D.room_calls disk.old) (D.room_bytes disk.old) (D.room_calls disk.new) (D.room_bytes disk.new) }
    ensures cause { HasCause (D.faults disk.old) (D.faults disk.new) result }
{
    let bytes = spell(slot);
    write_synced(disk, 0, offset(place) + 1, &bytes[1..])?;
    write_synced(disk, 0, offset(place), &[OPEN])
}

/// Makes another slot the current one, by up to 6 calls of the disk with 17 bytes: the slot that is not current is closed,
/// if it is open; the new one is written behind its gate; then the gate is opened. Each of these is synced.
///
/// At each moment of the call a crash leaves the one slot as the current one, or the other; after Ok it leaves what reads
/// give, with the new one. No area but area 0 changes, so what the new slot names has to be synced before.
///
/// As the call begins, area 0 is the same in each image that a crash may leave, and `old` is current there; the turn of
/// `new` is the one that follows. `DiskFault` comes only where the disk's count of faults rose.
pub fn flip<D: Disk>(disk: &mut D, old: Super, new: Super) -> Result<(), DiskFault>
    requires head { D.honest disk.old → SameHead (D.content disk.old) (D.images disk.old (D.clock disk.old)) }
    requires current { D.honest disk.old → Names (D.content disk.old 0) old }
    requires canonical { IsCanonical new }
    requires turn { new.turn ≡ (old.turn + 1) % 4 }
    requires room_calls { 6 ≤ D.room_calls disk.old }
    requires room_bytes { 17 ≤ D.room_bytes disk.old }
    ensures honest { D.honest disk.old ↔ D.honest disk.new }
    ensures rises { D.honest disk.old → OnOk result (D.clock disk.old < D.clock disk.new) }
    ensures flipped { D.honest disk.old → OnOk result (Changes 0 (IsFlipped new) (D.content disk.old) (D.content disk.new)) }
    ensures durable { D.honest disk.old → OnOk result (LeavesOnly (D.content disk.new) (D.images disk.new (D.clock disk.new))) }
    ensures images { D.honest disk.old → Runs (D.clock disk.old) (D.clock disk.new) (D.images disk.old) (D.images disk.new) (Changes 0 (MayFlip old new)) }
    ensures room { TakesAtMost 6 17 (D.room_calls disk.old) (D.room_bytes disk.old) (D.room_calls disk.new) (D.room_bytes disk.new) }
    ensures cause { HasCause (D.faults disk.old) (D.faults disk.new) result }
{
    let other = 1 - old.turn % 2;
    close_slot(disk, other)?;
    put_slot(disk, other, new)?;
    Ok(())
}
