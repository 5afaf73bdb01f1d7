ghost use Rattle.std.specs.Prelude.{◌≡◌, ◌≤◌, ◌↔◌, length, IfOk, IsErrOf};
ghost use Rattle.std.specs.Option.{ForSome};
ghost use Rattle.ct_pages.specs.Slots.{IsCanonical};
ghost use Rattle.ct_faults.specs.Causes.{Rose};
ghost use Rattle.ct_faults.specs.Disk.{Same, Runs, TakesRoom};
ghost use Rattle.ct_pages.specs.Reading.{Reads};

use crate::Super;
use crate::slot::{current, read_slot};
use ct_faults::Disk;
use ct_log::{OpenFault, read_front};

/// What each area 0 begins with.
pub const MARK: [u8; 8] = *b"CTDISK\n\0";

/// The bytes of mark and slots.
pub const HEAD_BYTES: usize = 40;

/// What mark and slots say: the current slot, or nothing where both slots are closed.
///
/// `Foreign` comes exactly where the mark is another (at offset 0), else where slot 0 is open and may not stand there (8),
/// else where slot 1 is (24). The answer is no other fault.
fn read_head(bytes: &[u8]) -> Result<Option<Super>, OpenFault>
    requires { length bytes.now ≡ 40 }
    ensures reads { Reads bytes.now result }
    ensures disk { IsErrOf result OpenFault.DiskFault → ⊥ }
{
    if bytes[..8] != MARK[..] {
        return Err(OpenFault::Foreign { area: 0, offset: 0 });
    }
    let zero = read_slot(0, &bytes[8..24])?;
    let one = read_slot(1, &bytes[24..40])?;
    Ok(current(zero, one))
}

/// Reads the current slot of a disk: that which names the areas of its database. It is none where the disk is unfinished.
/// Nothing but that it may stand there is told of the slot of a disk that is not honest.
///
/// `Foreign` has area 0, and comes exactly where this has 40 bytes or more and its first 8 are not the mark (at offset 0);
/// else where slot 0 is open and may not stand there (at offset 8); else where slot 1 is (at offset 24). `DiskFault` comes
/// only where the disk's count of faults rose. The answer is never `Memory`.
pub fn read_current<D: Disk>(disk: &mut D) -> Result<Option<Super>, OpenFault>
    ensures reads { D.honest disk.old → Reads (D.content disk.old 0) result }
    ensures canonical { IfOk result (λ said. ForSome said IsCanonical) }
    ensures honest { D.honest disk.old ↔ D.honest disk.new }
    ensures content { D.honest disk.old → D.content disk.new ≡ D.content disk.old }
    ensures images { D.honest disk.old → Runs (D.clock disk.old) (D.clock disk.new) (D.images disk.old) (D.images disk.new) Same }
    ensures room { TakesRoom 0 0 (D.room_calls disk.old) (D.room_bytes disk.old) (D.room_calls disk.new) (D.room_bytes disk.new) }
    ensures later { D.faults disk.old ≤ D.faults disk.new }
    ensures fault { IsErrOf result OpenFault.DiskFault → Rose (D.faults disk.old) (D.faults disk.new) }
    ensures memory { IsErrOf result OpenFault.Memory → ⊥ }
{
    let mut head = [0; HEAD_BYTES];
    let count = read_front(disk, 0, &mut head)?;
    if count < HEAD_BYTES {
        return Ok(None);
    }
    read_head(&head)
}
