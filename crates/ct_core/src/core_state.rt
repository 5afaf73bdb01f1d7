ghost use Rattle.std.specs.Prelude.{◌≡◌, ◌+◌, ◌^◌, ◌<◌, ◌≤◌, if◌then◌else◌};
ghost use Rattle.ct_types.specs.declared.refusal.Refusal.TheVariants.{Exhausted};
ghost use Rattle.ct_types.specs.declared.reply.Reply.TheVariants.{Refused};
ghost use Rattle.ct_session.specs.Sessions.{SessionState};
ghost use Rattle.ct_state.specs.Machine.{Machine, db_of, next_xdes, xdes_or};
ghost use Rattle.ct_state.specs.Seen.{takes_view as takes_a_view};
ghost use Rattle.ct_machine.specs.Step.{entry_of, has_room as has_room_for, most_number};
ghost use Rattle.ct_core.specs.Settling.{takes_view_of};

use crate::decide::{decide_command, waiting};
use crate::reads::env;
use crate::writing::is_open;
use ct_asks::asks_versions;
use ct_database::Database;
use ct_machine::{Decision, draws_version, has_number};
use ct_sessions::Sessions;
use ct_types::{
    Act, ColType, Command, Entry, List, Memory, Refusal, Reply, Stmt, Text, Value, Variables, Write,
};
use std::alloc::Global;
use std::marker::Model;

/// The greatest version, and the greatest number of a transaction.
const MOST_NUMBER: u64 = 1 << 62;

/// The newest database, with the sessions and what the next statement needs, and the disk, which nothing touches yet.
/// Contracts see all five. The version is at most 2^62, the next number at most one more, each table has at most 64
/// columns, the writes that wait can be stored, and there is a machine for which the core stands.
#[derive(Drop)]
pub struct Core<D> {
    disk: D,
    db: Database,
    sessions: Sessions,
    /// In seconds.
    now: u64,
    next: u64,
}

impl<D> Model for Core<D> {
    ghost use Rattle.ct_core.specs.Range.{IsInRange};
    ghost use Rattle.ct_core.specs.Stands.{CoreState, StandsForOne};

    ghost Value = { CoreState D };

    ghost view = { λ core. record { disk = core.disk; db = core.db; sessions = core.sessions; now = core.now; next = core.next } };

    ghost invariant = { λ core. IsInRange core.db core.next core.sessions × StandsForOne (record { disk = core.disk; db = core.db; sessions = core.sessions; now = core.now; next = core.next }) };
}

/// The version after an entry: the next one where it draws one.
fn version_after(version: u64, draws: bool) -> u64
    requires { version < 2 ^ 63 }
    ensures { result ≡ (if draws then version + 1 else version) }
{
    if draws { version + 1 } else { version }
}

/// The number of a transaction: the one that it has drawn, else the next.
fn number_of(next: u64, drawn: Option<u64>) -> u64
    ensures { result ≡ xdes_or next drawn }
{
    drawn.unwrap_or(next)
}

/// The number of the next transaction once one has its number, where it takes one and had none before.
fn number_after(next: u64, numbered: bool, drawn: Option<u64>) -> u64
    requires { next < 2 ^ 63 }
    ensures { result ≡ (if numbered then next_xdes next drawn else next) }
{
    if numbered && drawn.is_none() {
        next + 1
    } else {
        next
    }
}

/// The entry of an act of a session that has drawn this number, in a core with this database, time and next number.
fn entry(db: &Database, now: u64, next: u64, drawn: Option<u64>, act: Act) -> Entry
    requires { db.now.version < 2 ^ 63 }
    ensures { (m : Machine) (session : SessionState) → db.now ≡ db_of m → now ≡ m.now → next ≡ m.next → drawn ≡ session.xdes → result ≡ entry_of m session act }
{
    let draws = draws_version(db.catalogue(), &act);
    Entry {
        version: version_after(db.version(), draws),
        draws,
        xdes: if has_number(&act) {
            number_of(next, drawn)
        } else {
            0
        },
        time: now,
        act,
    }
}

/// Whether the numbers of an entry are not past the greatest.
fn has_room(entry: &Entry) -> bool
    ensures { result ≡ has_room_for entry.now }
{
    entry.version <= MOST_NUMBER && entry.xdes <= MOST_NUMBER
}

/// That no version or no number is left.
fn exhausted() -> Reply
    ensures { result ≡ Refused (Exhausted most_number) }
{
    let limit = MOST_NUMBER;
    Reply::Refused(Refusal::Exhausted { limit })
}

/// Whether an accepted statement takes the view of a SNAPSHOT transaction that has none yet.
fn takes_view(statement: &Stmt) -> bool
    ensures { result ≡ takes_a_view statement.now }
{
    match statement {
        Stmt::Write { .. } | Stmt::Select(_) | Stmt::SetVariable { .. } => true,
        Stmt::Declare { value, .. } => value.is_some(),
        Stmt::AlterDatabase { .. }
        | Stmt::CreateTable { .. }
        | Stmt::EnableTracking { .. }
        | Stmt::DisableTracking { .. }
        | Stmt::TruncateTable { .. }
        | Stmt::Begin
        | Stmt::Commit
        | Stmt::Rollback
        | Stmt::SetIsolation(_)
        | Stmt::SetLockTimeout => false,
    }
}

/// The same of a command.
fn command_takes_view(what: &Command) -> bool
    ensures { result ≡ takes_view_of what.now }
{
    match what {
        Command::Sql(statement) => takes_view(statement),
        _ => false,
    }
}

impl<D> Core<D> {
    ghost use Rattle.std.specs.Prelude.{false, true, ℕ, IfErr, IfOk, IsOkAnd, OnErr, OnOk};
    ghost use Rattle.ct_bind_names.specs.Catalogue.{is_declared};
    ghost use Rattle.ct_database.specs.Waiting.{AreStoredIn};
    ghost use Rattle.ct_model.specs.Apply.{no_db};
    ghost use Rattle.ct_types.specs.declared.command.Command.TheVariants.{Sql};
    ghost use Rattle.ct_types.specs.declared.stmt.Stmt.TheVariants as stmt;
    ghost use Rattle.ct_machine.specs.Decide.{decide as decided};
    ghost use Rattle.ct_state.specs.Machine.{opening, with_session};
    ghost use Rattle.ct_machine.specs.Play.{Follows, after};
    ghost use Rattle.ct_state.specs.Replies.{is_memory};
    ghost use Rattle.ct_sessions.specs.Owns.{IsReady, MayView, own_or};
    ghost use Rattle.ct_sessions.specs.Seats.{own_in, state_in};
    ghost use Rattle.ct_core.specs.Range.{CommitIsKept, DecisionIsKept, WaitIsKept};
    ghost use Rattle.ct_core.specs.Settling.{IsSettled, IsTaken, StaysFor};
    ghost use Rattle.ct_core.specs.Stands.{Stands};
    ghost use Rattle.ct_session.specs.Sessions.{ended};
    ghost use Rattle.ct_session.specs.declared.tran.Tran.TheVariants as tran;
    ghost use Rattle.ct_machine.specs.Step.{viewed};

    /// The core of an opening without anything on the disk: the empty database at time 0, and fresh sessions. The first
    /// transaction has number 1. For want of memory the disk comes back.
    pub fn fresh(alloc: Global, disk: D) -> Result<Core<D>, (D, Memory)>
        ensures stands { IfOk result (λ core. Stands core (opening no_db)) }
        ensures disk { IfOk result (λ core. core.disk ≡ disk) }
        ensures back { IfErr result (λ back. back.0 ≡ disk) }
    {
        Ok(Core {
            disk,
            db: Database::empty(alloc),
            sessions: Sessions::new(alloc),
            now: 0,
            next: 1,
        })
    }

    /// The disk, which is as it was handed in.
    pub fn close(self) -> D
        ensures { result ≡ self.disk }
    {
        self.disk
    }

    /// Takes the view that an accepted statement takes, where it takes one.
    fn view(&mut self, session: u8, what: &Command)
        requires { MayView self.old.sessions session }
        ensures views { (m : Machine) → Stands self.old m → Stands self.new (with_session m session (viewed m what.now (m.sessions session))) }
        ensures disk { self.new.disk ≡ self.old.disk }
    {
        if command_takes_view(what) {
            self.sessions.view(session);
        }
    }

    /// Commits an act of a session, where a version and a transaction's number are left for it, and ends the session's transaction.
    fn commit(&mut self, session: u8, act: Act, reply: Reply) -> Result<Reply, Memory>
        requires { CommitIsKept self.old.db act reply }
        ensures ok { IfOk result (λ shown. (m : Machine) (what : Command) → Stands self.old m → IsSettled m session what (Decision.Commits act reply) shown self.new) }
        ensures disk { self.new.disk ≡ self.old.disk }
        ensures err { OnErr result (StaysFor self.old self.new) }
    {
        let drawn = self.sessions.xdes(session);
        let numbered = has_number(&act);
        let entry = entry(&self.db, self.now, self.next, drawn, act);
        if !has_room(&entry) {
            return Ok(exhausted());
        }
        let noted = self.sessions.noted(&entry)?;
        self.db.apply(entry)?;
        self.sessions.commit(noted);
        self.sessions.end(session);
        self.next = number_after(self.next, numbered, drawn);
        Ok(reply)
    }

    /// Lets writes of a session wait for its COMMIT, where a number is left for its transaction.
    fn pend(
        &mut self,
        session: u8,
        what: &Command,
        writes: List<Write>,
        reply: Reply,
    ) -> Result<Reply, Memory>
        requires ready { MayView self.old.sessions session }
        requires kept { WaitIsKept (own_or self.old.db (own_in self.old.sessions.seats session)) (state_in self.old.sessions.seats session) writes reply }
        ensures ok { IfOk result (λ shown. (m : Machine) → Stands self.old m → IsSettled m session what.now (Decision.Pends writes reply) shown self.new) }
        ensures disk { self.new.disk ≡ self.old.disk }
        ensures err { OnErr result (StaysFor self.old self.new) }
    {
        let drawn = self.sessions.xdes(session);
        if number_of(self.next, drawn) > MOST_NUMBER {
            return Ok(exhausted());
        }
        let after = number_after(self.next, true, drawn);
        self.sessions.pend(session, writes, self.next)?;
        self.next = after;
        self.view(session, what);
        Ok(reply)
    }

    /// Gives a variable of a session a value.
    fn set(
        &mut self,
        session: u8,
        what: &Command,
        name: &Text,
        value: Value,
    ) -> Result<Reply, Memory>
        requires ready { MayView self.old.sessions session }
        requires there { is_declared (state_in self.old.sessions.seats session).variables name.now ≡ true }
        ensures ok { IfOk result (λ shown. (m : Machine) → Stands self.old m → IsSettled m session what.now (Decision.Sets name.now value) shown self.new) }
        ensures disk { self.new.disk ≡ self.old.disk }
        ensures err { OnErr result (StaysFor self.old self.new) }
    {
        self.sessions.set(session, name, value)?;
        self.view(session, what);
        Ok(Reply::Done)
    }

    /// Declares a variable of a session.
    fn declare(
        &mut self,
        session: u8,
        what: &Command,
        name: Text,
        kind: ColType,
        value: Value,
    ) -> Result<Reply, Memory>
        requires ready { MayView self.old.sessions session }
        requires free { is_declared (state_in self.old.sessions.seats session).variables name ≡ false }
        ensures ok { IfOk result (λ shown. (m : Machine) → Stands self.old m → IsSettled m session what.now (Decision.Declares name kind value) shown self.new) }
        ensures disk { self.new.disk ≡ self.old.disk }
        ensures err { OnErr result (StaysFor self.old self.new) }
    {
        self.sessions.declare(session, name, kind, value)?;
        self.view(session, what);
        Ok(Reply::Done)
    }

    /// Answers a statement that changes nothing but that it takes a view.
    fn answer(&mut self, session: u8, what: &Command, reply: Reply) -> Reply
        requires { MayView self.old.sessions session }
        ensures settled { (m : Machine) → Stands self.old m → IsSettled m session what.now (Decision.Answers reply) result self.new }
        ensures disk { self.new.disk ≡ self.old.disk }
    {
        self.view(session, what);
        reply
    }

    /// Ends the transaction of a session, without a commit.
    fn end(&mut self, session: u8)
        ensures ends { (m : Machine) (what : Command) → Stands self.old m → Stands self.new (with_session m session (ended (viewed m what (m.sessions session)))) }
        ensures disk { self.new.disk ≡ self.old.disk }
    {
        self.sessions.end(session);
    }

    /// Begins a transaction of a session.
    fn begin(&mut self, session: u8, what: &Command) -> Result<Reply, Memory>
        requires none { (state_in self.old.sessions.seats session).tran ≡ tran.None }
        ensures ok { IfOk result (λ shown. (m : Machine) → Stands self.old m → IsSettled m session what.now Decision.Begins shown self.new) }
        ensures disk { self.new.disk ≡ self.old.disk }
        ensures err { OnErr result (StaysFor self.old self.new) }
    {
        self.sessions.begin(session)?;
        Ok(Reply::Done)
    }

    /// Sets the level of the transactions of a session.
    fn isolate(&mut self, session: u8, what: &Command, snapshot: bool) -> Result<Reply, Memory>
        requires { MayView self.old.sessions session }
        ensures ok { IfOk result (λ shown. (m : Machine) → Stands self.old m → IsSettled m session what.now (Decision.Isolates snapshot) shown self.new) }
        ensures disk { self.new.disk ≡ self.old.disk }
        ensures err { OnErr result (StaysFor self.old self.new) }
    {
        self.sessions.isolate(session, snapshot)?;
        self.view(session, what);
        Ok(Reply::Done)
    }

    /// Does what a decision on a statement of a session says.
    fn settle(&mut self, session: u8, what: &Command, decision: Decision) -> Result<Reply, Memory>
        requires ready { IsReady self.old.sessions session }
        requires kept { DecisionIsKept self.old.db (own_or self.old.db (own_in self.old.sessions.seats session)) (state_in self.old.sessions.seats session) decision }
        ensures ok { IfOk result (λ shown. (m : Machine) → Stands self.old m → IsSettled m session what.now decision shown self.new) }
        ensures disk { self.new.disk ≡ self.old.disk }
        ensures err { OnErr result (StaysFor self.old self.new) }
    {
        match decision {
            Decision::Refuses(refusal) => Ok(Reply::Refused(refusal)),
            Decision::Aborts(refusal) => {
                self.end(session);
                Ok(Reply::Refused(refusal))
            }
            Decision::Answers(reply) => Ok(self.answer(session, what, reply)),
            Decision::Commits(act, reply) => self.commit(session, act, reply),
            Decision::Pends(writes, reply) => self.pend(session, what, writes, reply),
            Decision::Begins => self.begin(session, what),
            Decision::Ends => {
                self.end(session);
                Ok(Reply::Done)
            }
            Decision::Isolates(snapshot) => self.isolate(session, what, snapshot),
            Decision::Sets(name, value) => self.set(session, what, &name, value),
            Decision::Declares(name, kind, value) => {
                self.declare(session, what, name, kind, value)
            }
        }
    }

    /// What a statement of a session comes to, whose next statement may read.
    fn decide(&self, alloc: Global, session: u8, what: &Command) -> Result<Decision, Memory>
        requires { IsReady self.now.sessions session }
        ensures is { IfOk result (λ made. (m : Machine) → Stands self.entry.now m → made ≡ decided m session what.now) }
        ensures kept { IfOk result (DecisionIsKept self.entry.now.db (own_or self.entry.now.db (own_in self.entry.now.sessions.seats session)) (state_in self.entry.now.sessions.seats session)) }
    {
        let none = Variables(List::new(alloc));
        let db = self.sessions.seen(session, &self.db);
        let env = env(db, self.sessions.variables(session, &none));
        decide_command(alloc, &self.sessions, session, db, &env, what)
    }

    /// Brings what the next statement of a session sees up to date.
    fn prepare(&mut self, session: u8) -> Result<(), Memory>
        ensures ready { OnOk result (IsReady self.new.sessions session) }
        ensures stays { StaysFor self.old self.new }
        ensures disk { self.new.disk ≡ self.old.disk }
    {
        self.sessions.prepare(session, &self.db)
    }

    /// Sees to it that the versions of rows are noted, where a statement asks for them.
    fn note(&mut self, what: &Command) -> Result<(), Memory>
        ensures { self.new ≡ self.old }
    {
        if asks_versions(what) {
            self.db.note_versions()?;
        }
        Ok(())
    }

    /// A statement that reads or writes what its session sees.
    fn step(&mut self, alloc: Global, session: u8, what: &Command) -> Result<Reply, Memory>
        ensures ok { IfOk result (λ reply. (m : Machine) → Stands self.old m → IsTaken m session what.now reply self.new) }
        ensures disk { self.new.disk ≡ self.old.disk }
        ensures err { OnErr result (StaysFor self.old self.new) }
    {
        self.note(what)?;
        self.prepare(session)?;
        let decision = self.decide(alloc, session, what)?;
        self.settle(session, what, decision)
    }

    /// COMMIT of a session. What the session sees plays no part, so it is not brought up to date.
    fn commit_pending(&mut self, alloc: Global, session: u8) -> Result<Reply, Memory>
        ensures ok { IfOk result (λ reply. (m : Machine) → Stands self.old m → IsTaken m session (Sql stmt.Commit) reply self.new) }
        ensures disk { self.new.disk ≡ self.old.disk }
        ensures err { OnErr result (StaysFor self.old self.new) }
    {
        if !is_open(self.sessions.tran(session)) {
            return Ok(Reply::Refused(Refusal::NoCommit));
        }
        match waiting(alloc, self.sessions.pending(session))? {
            None => {
                self.end(session);
                Ok(Reply::Done)
            }
            Some(writes) => self.commit(session, Act::Commit(writes), Reply::Done),
        }
    }

    /// ROLLBACK of a session, in the same way.
    fn roll_back(&mut self, session: u8) -> Reply
        ensures taken { (m : Machine) → Stands self.old m → IsTaken m session (Sql stmt.Rollback) result self.new }
        ensures told { is_memory result ≡ false }
        ensures disk { self.new.disk ≡ self.old.disk }
    {
        if !is_open(self.sessions.tran(session)) {
            return Reply::Refused(Refusal::NoRollback);
        }
        self.end(session);
        Reply::Done
    }

    /// A sentence of a session: one that ends its transaction, or one that reads or writes what it sees.
    fn sentence(
        &mut self,
        alloc: Global,
        session: u8,
        what: &Command,
        statement: &Stmt,
    ) -> Result<Reply, Memory>
        requires { what.now ≡ Sql statement.now }
        ensures ok { IfOk result (λ reply. (m : Machine) → Stands self.old m → IsTaken m session what.now reply self.new) }
        ensures rolls_back { what.now ≡ Sql stmt.Rollback → IsOkAnd result (λ reply. is_memory reply ≡ false) }
        ensures disk { self.new.disk ≡ self.old.disk }
        ensures err { OnErr result (StaysFor self.old self.new) }
    {
        match statement {
            Stmt::Commit => self.commit_pending(alloc, session),
            Stmt::Rollback => Ok(self.roll_back(session)),
            _ => self.step(alloc, session, what),
        }
    }

    fn try_event(&mut self, alloc: Global, session: u8, what: &Command) -> Result<Reply, Memory>
        ensures ok { IfOk result (λ reply. (m : Machine) → Stands self.old m → IsTaken m session what.now reply self.new) }
        ensures rolls_back { what.now ≡ Sql stmt.Rollback → IsOkAnd result (λ reply. is_memory reply ≡ false) }
        ensures disk { self.new.disk ≡ self.old.disk }
        ensures err { OnErr result (StaysFor self.old self.new) }
    {
        match what {
            Command::Sql(statement) => self.sentence(alloc, session, what, statement),
            _ => self.step(alloc, session, what),
        }
    }

    /// One event: a statement of a session, with its reply. For every machine for which the core stood, the reply follows,
    /// and the core now stands for the machine after it.
    ///
    /// `Done` answers a definition or an option that is taken, SET and DECLARE, `Count` the rows that an INSERT, UPDATE or
    /// DELETE wrote, `Rows` what a SELECT reads. `Refused` is the first refusal that applies, and changes nothing: `Syntax`,
    /// or `TooMany` of 64 levels, for a text that is no sentence; `InTransaction` for a statement that may not stand in a
    /// transaction, `NoCommit` and `NoRollback` for COMMIT and ROLLBACK where none is open; what binding refuses, as LANGUAGE.md
    /// tells; `NotBuilt` for the commands of scripts;
    /// `Overflow` where a number leaves 64 bits, or those of its INT column or variable; `NotNull` and `TooLong` for a value
    /// that does not fit its column, `TooLong` for one that does not fit its variable; `Blocked` for a key, or a key of the table,
    /// that another session holds; `Conflict` for a table or a key that was changed after the view of a SNAPSHOT transaction, which
    /// it ends; `Duplicate` for an INSERT of a key that is there; `Exhausted` where no version or no transaction number is left, each at most 2^62. Want of memory is `Refused`
    /// with `Memory`; it may come at any event but ROLLBACK (`rolls_back`), and leaves the database and each session as it was. The order of the
    /// refusals is this project's own.
    pub fn event(&mut self, alloc: Global, session: u8, what: &Command) -> Reply
        ensures follows { (m : Machine) → Stands self.old m → Follows m session what.now result }
        ensures rolls_back { what.now ≡ Sql stmt.Rollback → is_memory result ≡ false }
        ensures stands { (m : Machine) → Stands self.old m → Stands self.new (after m session what.now result) }
        ensures disk { self.new.disk ≡ self.old.disk }
    {
        match self.try_event(alloc, session, what) {
            Ok(reply) => reply,
            Err(Memory) => Reply::Refused(Refusal::Memory),
        }
    }
}
