ghost use Rattle.std.specs.Prelude.{◌≡◌, ℕ, [], false, map, IfOk, OnOk};
ghost use Rattle.std.specs.Option.{IfSome};
ghost use Rattle.ct_database.specs.Waiting.{AreStoredIn};
ghost use Rattle.ct_locks.specs.Changes.{lock_of_write};
ghost use Rattle.ct_locks.specs.Holders.{locks_of};
ghost use Rattle.ct_model.specs.declared.db.Db.{Db};
ghost use Rattle.ct_types.specs.declared.reply.Reply.TheVariants.{Refused};
ghost use Rattle.ct_session.specs.Sessions.{fresh, is_open};
ghost use Rattle.ct_session.specs.declared.tran.Tran.TheVariants as tran;
ghost use Rattle.ct_state.specs.Conflicts.{conflict as conflicting};
ghost use Rattle.ct_state.specs.Machine.{Machine, db_of, opening};
ghost use Rattle.ct_state.specs.Replies.{is_memory};
ghost use Rattle.ct_state.specs.Seen.{seen_by};
ghost use Rattle.ct_sessions.specs.Changes.{HaveStates};
ghost use Rattle.ct_sessions.specs.Holds.{Holds};
ghost use Rattle.ct_sessions.specs.Owns.{IsReady, MayView, own_or};
ghost use Rattle.ct_sessions.specs.Seats.{own_in, state_in};
ghost use Rattle.ct_sessions.specs.Sound.{IsIdle};

use crate::seat::Seat;
use crate::seats::seat_of;
use crate::views;
use ct_conflicts::Later;
use ct_database::Database;
use ct_locks::Locks;
use ct_session::Tran;
use ct_types::{Copies, Memory, Refusal, Text, Variables, Write};
use std::alloc::Global;
use std::marker::Model;

/// The sessions of a server, by their numbers: what each keeps between its statements, and what it sees. One that did nothing yet is
/// as it starts. Contracts say for which machines these are the sessions, before each call and after it.
///
/// A session reads a database of its own only where its next statement needs one: under SNAPSHOT, and while writes wait.
#[derive(Drop)]
pub struct Sessions {
    pub(crate) alloc: Global,
    /// Those that did something, each number once.
    pub(crate) seats: Vec<Seat>,
    pub(crate) locks: Locks,
    /// What entries changed, for the views that are there.
    pub(crate) later: Later,
    /// The count of entries from which on a view may be asked what was changed later.
    pub(crate) since: u64,
    /// The count of all entries.
    pub(crate) entries: u64,
}

impl Model for Sessions {
    ghost use Rattle.ct_sessions.specs.Seats.{SessionsState};
    ghost use Rattle.ct_sessions.specs.Sound.{AreSound};

    ghost Value = { SessionsState };

    ghost view = { λ it. record { seats = it.seats.items; locks = it.locks; later = it.later; since = it.since; entries = it.entries } };

    ghost invariant = { λ it. AreSound it.seats.items it.locks it.since it.entries };
}

impl Sessions {
    /// Fresh sessions, and no entry. It takes no memory.
    pub fn new(alloc: Global) -> Sessions
        ensures holds { (db : Db) → Holds result (opening db) }
        ensures fresh { (number : ℕ) → state_in result.seats number ≡ fresh }
    {
        Sessions {
            alloc,
            seats: Vec::new(alloc),
            locks: Locks::new(alloc),
            later: Later::new(alloc),
            since: 0,
            entries: 0,
        }
    }

    /// The transaction of a session, if one is open, with its level and view. Without one, no write of it waits, and it has no number.
    pub fn tran(&self, number: u8) -> Tran
        ensures tran { result ≡ (state_in self.now.seats number).tran }
        ensures idle { is_open result ≡ false → IsIdle (state_in self.now.seats number) }
    {
        match seat_of(self.seats.as_slice(), number) {
            None => Tran::None,
            Some(seat) => seat.session.tran(),
        }
    }

    /// The number of a session's transaction, None before its first write.
    pub fn xdes(&self, number: u8) -> Option<u64>
        ensures { result ≡ (state_in self.now.seats number).xdes }
    {
        match seat_of(self.seats.as_slice(), number) {
            None => None,
            Some(seat) => seat.session.xdes(),
        }
    }

    /// The writes of a session that wait, in their order.
    pub fn pending(&self, number: u8) -> &[Write]
        ensures { result.now ≡ (state_in self.now.seats number).pending }
    {
        match seat_of(self.seats.as_slice(), number) {
            None => &[],
            Some(seat) => seat.session.pending(),
        }
    }

    /// The variables of a session, in the order in which they were declared. The caller lends an empty list for one that has none.
    pub fn variables<'a>(&'a self, number: u8, none: &'a Variables) -> &'a Variables
        requires { none.now.0 ≡ [] }
        ensures { result.now.0 ≡ (state_in self.now.seats number).variables }
    {
        match seat_of(self.seats.as_slice(), number) {
            None => none,
            Some(seat) => seat.session.variables(),
        }
    }

    /// The keys that sessions hold: each those of its writes that wait, in their order.
    pub fn locks(&self) -> &Locks
        ensures now { result.now ≡ self.now.locks }
        ensures held { (m : Machine) (number : ℕ) → Holds self.now m → locks_of result.now number ≡ map (lock_of_write number) (m.sessions number).pending }
    {
        let _ = &self.seats;
        &self.locks
    }

    /// Brings what a session reads as its own up to date with the newest database, with all entries, and with its writes that wait,
    /// where its next statement reads it. `Memory` is the only error; no session is changed then or else.
    ///
    /// It costs a step a table where the newest database was changed since, and a look-up for each write that is new there: so where
    /// other sessions commit between the statements of a transaction, it puts all writes that wait again.
    pub fn prepare(&mut self, number: u8, newest: &Database) -> Result<(), Memory>
        requires { AreStoredIn newest.now.tables (state_in self.old.seats number).pending }
        ensures ready { OnOk result (IsReady self.new number) }
        ensures view { OnOk result (MayView self.new number) }
        ensures states { HaveStates self.old.seats self.new.seats }
        ensures rest { self.new ≡ record self.old { seats = self.new.seats } }
        ensures holds { (m : Machine) → newest.now ≡ db_of m → Holds self.old m → Holds self.new m }
    {
        views::ready(self.alloc, &mut self.seats, number, newest, self.entries)
    }

    /// The database that the next statement of a session sees, once it was prepared: its own, where it has one, else the newest.
    pub fn seen<'a>(&'a self, number: u8, newest: &'a Database) -> &'a Database
        requires { IsReady self.now number }
        ensures own { result.now ≡ own_or newest.now (own_in self.now.seats number) }
        ensures alone { (state_in self.now.seats number).tran ≡ tran.None → result.now ≡ newest.now }
        ensures seen { (m : Machine) → newest.now ≡ db_of m → Holds self.now m → result.now ≡ (seen_by m (m.sessions number)).db }
    {
        match seat_of(self.seats.as_slice(), number) {
            None => newest,
            Some(seat) => seat.sees(newest),
        }
    }

    /// The refusal of a statement that writes these rows of a table, by its id and name, where another transaction changed the
    /// table or one of the rows after the session's view. A session without a view conflicts with none. `Memory` is the only error.
    ///
    /// T-SQL: 3960. It costs a look-up for each write.
    pub fn conflict(
        &self,
        number: u8,
        name: &Text,
        table: u32,
        writes: &[Write],
    ) -> Result<Option<Refusal>, Memory>
        ensures is { IfOk result (λ found. (m : Machine) → Holds self.now m → found ≡ conflicting m.past (m.sessions number).tran name.now table writes.now) }
        ensures told { IfOk result (λ found. IfSome found (λ refusal. is_memory (Refused refusal) ≡ false)) }
    {
        let Tran::Viewed(view) = self.tran(number) else {
            return Ok(None);
        };
        match self.later.conflict(view.at, table, writes) {
            None => Ok(None),
            Some(xdes) => Ok(Some(Refusal::Conflict {
                table: name.copy(self.alloc)?,
                xdes,
            })),
        }
    }
}
