ghost use Rattle.std.specs.Prelude.{◌≡◌, List, length, false, true};
ghost use Rattle.ct_types.specs.declared.entry.Entry.{Entry};
ghost use Rattle.ct_conflicts.specs.Later.{IsLater};
ghost use Rattle.ct_sessions.specs.Seats.{any_view as has_any_view};

use crate::seat::Seat;
use crate::seats::any_view;
use ct_conflicts::Later;

/// Forgets what entries changed where no session has a view any more. It answers from which count of entries on it is known then.
pub(crate) fn forget(seats: &[Seat], later: &mut Later, since: u64, entries: u64) -> u64
    ensures kept { has_any_view seats.now ≡ true → (result ≡ since) × (later.new ≡ later.old) }
    ensures since { has_any_view seats.now ≡ false → result ≡ entries }
    ensures later { has_any_view seats.now ≡ false → (past : List Entry) → entries ≡ length past → IsLater later.new past result }
{
    if any_view(seats) {
        return since;
    }
    later.clear();
    entries
}
