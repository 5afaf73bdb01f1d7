ghost use Rattle.std.specs.Prelude.{◌≡◌, ◌+◌, ◌^◌, ◌<◌, IfOk};
ghost use Rattle.ct_types.specs.declared.entry.Entry.{Entry};
ghost use Rattle.ct_state.specs.Machine.{Machine};
ghost use Rattle.ct_sessions.specs.Holds.{Holds, IsNoted, with_entry};

use crate::kept::forget;
use crate::seats::any_view;
use crate::sessions::Sessions;
use ct_conflicts::Later;
use ct_types::{Entry, Memory};

/// What is known of entries with one more, which [`Sessions::commit`] takes over.
#[derive(Drop)]
pub struct Noted {
    pub(crate) later: Later,
}

impl Sessions {
    /// Notes what an entry changes, for the sessions that have a view. `Memory` is the only error; it also comes where 2^64 - 1
    /// entries were counted. The sessions stay as they are.
    ///
    /// It costs a look-up for each write of the entry; where no session has a view, nothing.
    pub fn noted(&self, entry: &Entry) -> Result<Noted, Memory>
        ensures { IfOk result (λ made. IsNoted self.now entry.now made.later) }
    {
        if self.entries == u64::MAX {
            return Err(Memory);
        }
        if !any_view(self.seats.as_slice()) {
            return Ok(Noted {
                later: Later::new(self.alloc),
            });
        }
        let later = self.later.noted(self.entries + 1, entry)?;
        Ok(Noted { later })
    }

    /// Counts one entry more, and takes over what was noted of it. It takes no memory.
    pub fn commit(&mut self, noted: Noted)
        requires { self.old.entries + 1 < 2 ^ 64 }
        ensures seats { self.new.seats ≡ self.old.seats }
        ensures locks { self.new.locks ≡ self.old.locks }
        ensures entries { self.new.entries ≡ self.old.entries + 1 }
        ensures holds { (m : Machine) (entry : Entry) → IsNoted self.old entry noted.later → Holds self.old m → Holds self.new (with_entry m entry) }
    {
        self.later = noted.later;
        self.entries += 1;
        self.since = forget(
            self.seats.as_slice(),
            &mut self.later,
            self.since,
            self.entries,
        );
    }
}
