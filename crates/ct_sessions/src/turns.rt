ghost use Rattle.std.specs.Prelude.{◌≡◌, false, true, OnOk, OnErr};
ghost use Rattle.std.specs.Option.{IfSome};
ghost use Rattle.ct_bind_names.specs.Catalogue.{is_declared};
ghost use Rattle.ct_database.specs.Waiting.{AreStoredIn};
ghost use Rattle.ct_session.specs.SetDeclare.{with_value, with_variable};
ghost use Rattle.ct_session.specs.Sessions.{begun, ended, is_open};
ghost use Rattle.ct_session.specs.declared.tran.Tran.TheVariants as tran;
ghost use Rattle.ct_state.specs.Machine.{Machine, with_session};
ghost use Rattle.ct_state.specs.Seen.{viewing};
ghost use Rattle.ct_sessions.specs.Changes.{HasState, Stays, Turns, waiting};
ghost use Rattle.ct_sessions.specs.Holds.{Holds};
ghost use Rattle.ct_sessions.specs.Owns.{MayView};
ghost use Rattle.ct_sessions.specs.Seats.{own_in, state_in};

use crate::kept::forget;
use crate::sessions::Sessions;
use crate::{states, views, waits};
use ct_types::{ColType, List, Memory, Text, Value, Write};

impl Sessions {
    /// Begins a transaction of a session that has none, at its level. `Memory` is the only error, and each session is then as
    /// before.
    ///
    /// T-SQL: BEGIN TRANSACTION.
    pub fn begin(&mut self, number: u8) -> Result<(), Memory>
        requires { (state_in self.old.seats number).tran ≡ tran.None }
        ensures ok { OnOk result (Turns self.old self.new number (λ state. record state { tran = begun state.snapshot })) }
        ensures err { OnErr result (Stays self.old self.new) }
    {
        states::begin(self.alloc, &mut self.seats, number)
    }

    /// Sets the level of the transactions of a session that begin from now on: SNAPSHOT, else READ COMMITTED. `Memory` is the only
    /// error, and each session is then as before.
    ///
    /// T-SQL: SET TRANSACTION ISOLATION LEVEL.
    pub fn isolate(&mut self, number: u8, snapshot: bool) -> Result<(), Memory>
        ensures ok { OnOk result (Turns self.old self.new number (λ state. record state { snapshot = snapshot })) }
        ensures err { OnErr result (Stays self.old self.new) }
    {
        states::isolate(self.alloc, &mut self.seats, number, snapshot)
    }

    /// Gives a variable of a session, which is declared, a value that was fitted to its type before. `Memory` is the only error, and
    /// each session is then as before.
    ///
    /// T-SQL: SET @local_variable.
    pub fn set(&mut self, number: u8, name: &Text, value: Value) -> Result<(), Memory>
        requires { is_declared (state_in self.old.seats number).variables name.now ≡ true }
        ensures ok { OnOk result (Turns self.old self.new number (λ state. record state { variables = with_value state.variables name.now value })) }
        ensures err { OnErr result (Stays self.old self.new) }
    {
        states::set(self.alloc, &mut self.seats, number, name, value)
    }

    /// Declares a variable of a session, which is not declared yet, with a value that was fitted to its type before. `Memory` is the
    /// only error, and each session is then as before.
    ///
    /// T-SQL: DECLARE @local_variable.
    pub fn declare(
        &mut self,
        number: u8,
        name: Text,
        kind: ColType,
        value: Value,
    ) -> Result<(), Memory>
        requires { is_declared (state_in self.old.seats number).variables name ≡ false }
        ensures ok { OnOk result (Turns self.old self.new number (λ state. record state { variables = with_variable state.variables name kind value })) }
        ensures err { OnErr result (Stays self.old self.new) }
    {
        states::declare(self.alloc, &mut self.seats, number, name, kind, value)
    }

    /// Takes the view of a SNAPSHOT transaction that has none yet: that of all entries. Any other session stays as it is. It takes
    /// no memory, so that it can come behind all that may want some.
    ///
    /// The database of the view was made where the statement was prepared. This project's own.
    pub fn view(&mut self, number: u8)
        requires { MayView self.old number }
        ensures states { HasState self.old.seats self.new.seats number (record (state_in self.old.seats number) { tran = (state_in self.new.seats number).tran }) }
        ensures entries { self.new.entries ≡ self.old.entries }
        ensures holds { (m : Machine) → Holds self.old m → Holds self.new (with_session m number (viewing m (m.sessions number))) }
    {
        views::view(&mut self.seats, number);
    }

    /// Adds writes of a session in a transaction behind those that wait, takes their keys, and takes this number for the transaction
    /// where it has none yet. Who else holds the keys is the caller's affair. `Memory` is the only error, and each session is then
    /// as before.
    pub fn pend(&mut self, number: u8, writes: List<Write>, next: u64) -> Result<(), Memory>
        requires open { is_open (state_in self.old.seats number).tran ≡ true }
        requires stored { IfSome (own_in self.old.seats number) (λ own. AreStoredIn own.db.tables writes) }
        ensures ok { OnOk result (Turns self.old self.new number (waiting next writes)) }
        ensures err { OnErr result (Stays self.old self.new) }
    {
        waits::pend(&mut self.seats, &mut self.locks, number, writes, next)
    }

    /// Ends the transaction of a session, with or without a commit before: no write of it waits, and it holds no key. Where no
    /// session has a view any more, what entries changed is forgotten. It takes no memory.
    ///
    /// T-SQL: COMMIT TRANSACTION, ROLLBACK TRANSACTION.
    pub fn end(&mut self, number: u8)
        ensures states { HasState self.old.seats self.new.seats number (ended (state_in self.old.seats number)) }
        ensures entries { self.new.entries ≡ self.old.entries }
        ensures holds { (m : Machine) → Holds self.old m → Holds self.new (with_session m number (ended (m.sessions number))) }
    {
        states::end(&mut self.seats, number);
        self.locks.release(number);
        self.since = forget(
            self.seats.as_slice(),
            &mut self.later,
            self.since,
            self.entries,
        );
    }
}
