ghost use Rattle.std.specs.Prelude.{◌≡◌, ◌<◌, ◌≤◌, ◌↔◌, IfOk, OnOk};
ghost use Rattle.ct_faults.specs.Causes.{HasCause};
ghost use Rattle.ct_faults.specs.Disk.{Changes, Runs, LeavesOnly};
ghost use Rattle.ct_log.specs.Append.{TakesAtMost};
ghost use Rattle.ct_pages.specs.Slots.{IsUnfinished};
ghost use Rattle.ct_pages.specs.Flips.{SameHead};
ghost use Rattle.ct_pages.specs.Fresh.{fresh_slot, head_without_end, IsFinished, MayFinish, BecomesLaidOut, StaysUnfinished};

use crate::flipping::put_slot;
use crate::reading::{HEAD_BYTES, MARK};
use crate::slot::CLOSED;
use crate::{Super, start};
use ct_faults::{Disk, DiskFault, Failed};
use ct_log::write_synced;

/// The slot of a disk that was just finished: no checkpoint, and its one log in area 3.
const FRESH_SLOT: Super = Super {
    format: 1,
    turn: 0,
    checkpoint: 0,
    first: 3,
    second: 0,
    length: 0,
};

/// All but the last byte of area 0 without an open slot: the mark, and zeros.
fn closed_head() -> [u8; HEAD_BYTES - 1]
    ensures { result ≡ head_without_end }
{
    let mut bytes = [CLOSED; HEAD_BYTES - 1];
    bytes[..MARK.len()].copy_from_slice(&MARK);
    bytes
}

/// Gives area 0 its mark, and zeros for its slots, where it is too short for them. The last byte is written when the
/// others are synced.
fn lay_out<D: Disk>(disk: &mut D) -> Result<(), Failed>
    requires head { D.honest disk.old → SameHead (D.content disk.old) (D.images disk.old (D.clock disk.old)) }
    requires unfinished { D.honest disk.old → IsUnfinished (D.content disk.old 0) }
    requires room_calls { 4 ≤ D.room_calls disk.old }
    requires room_bytes { 40 ≤ D.room_bytes disk.old }
    ensures honest { D.honest disk.old ↔ D.honest disk.new }
    ensures laid_out { D.honest disk.old → OnOk result (Changes 0 BecomesLaidOut (D.content disk.old) (D.content disk.new)) }
    ensures head { D.honest disk.old → OnOk result (SameHead (D.content disk.new) (D.images disk.new (D.clock disk.new))) }
    ensures images { D.honest disk.old → Runs (D.clock disk.old) (D.clock disk.new) (D.images disk.old) (D.images disk.new) (Changes 0 StaysUnfinished) }
    ensures room { TakesAtMost 4 40 (D.room_calls disk.old) (D.room_bytes disk.old) (D.room_calls disk.new) (D.room_bytes disk.new) }
    ensures cause { HasCause (D.faults disk.old) (D.faults disk.new) result }
{
    if disk.len(0)? < HEAD_BYTES as u64 {
        let bytes = closed_head();
        write_synced(disk, 0, 0, &bytes)?;
        write_synced(disk, 0, bytes.len() as u64, &[CLOSED])?;
    }
    Ok(())
}

/// Finishes an unfinished disk, by up to 11 calls with 57 bytes: it lays out area 0, makes area 3 an empty log, and puts
/// the slot into place that names it, which it answers.
///
/// At each moment of the call a crash leaves an unfinished disk or a finished one, so it stands for the empty database;
/// after Ok it leaves what reads give, a finished one. Areas 1, 2, 4 and 5 stay as they are.
///
/// As the call begins, area 0 is the same in each image that a crash may leave. `DiskFault` comes only where the disk's
/// count of faults rose.
pub fn finish_disk<D: Disk>(disk: &mut D) -> Result<Super, DiskFault>
    requires head { D.honest disk.old → SameHead (D.content disk.old) (D.images disk.old (D.clock disk.old)) }
    requires unfinished { D.honest disk.old → IsUnfinished (D.content disk.old 0) }
    requires room_calls { 11 ≤ D.room_calls disk.old }
    requires room_bytes { 57 ≤ D.room_bytes disk.old }
    ensures slot { IfOk result (λ slot. slot ≡ fresh_slot) }
    ensures honest { D.honest disk.old ↔ D.honest disk.new }
    ensures rises { D.honest disk.old → OnOk result (D.clock disk.old < D.clock disk.new) }
    ensures finished { D.honest disk.old → OnOk result (IsFinished (D.content disk.old) (D.content disk.new)) }
    ensures durable { D.honest disk.old → OnOk result (LeavesOnly (D.content disk.new) (D.images disk.new (D.clock disk.new))) }
    ensures images { D.honest disk.old → Runs (D.clock disk.old) (D.clock disk.new) (D.images disk.old) (D.images disk.new) MayFinish }
    ensures room { TakesAtMost 11 57 (D.room_calls disk.old) (D.room_bytes disk.old) (D.room_calls disk.new) (D.room_bytes disk.new) }
    ensures cause { HasCause (D.faults disk.old) (D.faults disk.new) result }
{
    lay_out(disk)?;
    start(disk, FRESH_SLOT.first)?;
    put_slot(disk, 0, FRESH_SLOT)?;
    Ok(FRESH_SLOT)
}
