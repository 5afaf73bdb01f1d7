ghost use Rattle.std.specs.Prelude.{◌≡◌, not, Ok, None, IfOk, MatchOption};
ghost use Rattle.std.specs.Option.{option_and_then, option_copied};
ghost use Rattle.ct_types.specs.Answers.{Gives, demand};
ghost use Rattle.ct_types.specs.declared.entry.Act.TheVariants.{Commit};
ghost use Rattle.ct_types.specs.declared.refusal.Refusal.TheVariants.{InTransaction};
ghost use Rattle.ct_types.specs.declared.reply.Reply.TheVariants.{Done};
ghost use Rattle.ct_machine.specs.declared.decision.Decision.TheVariants as decision;
ghost use Rattle.ct_bind.specs.Limits.{KeepsLimits};
ghost use Rattle.ct_bind_kind_laws.specs.Storing.{StoresWell};
ghost use Rattle.ct_model.specs.declared.db.Db.{Db};
ghost use Rattle.ct_model.specs.Tables.{table_of};
ghost use Rattle.ct_machine.specs.Decide as spec;
ghost use Rattle.ct_state.specs.Holding.{blocked_table as table_blocked};
ghost use Rattle.ct_state.specs.Machine.{Machine};
ghost use Rattle.ct_machine.specs.Reads.{catalogue as catalogue_of, selected as selected_in};
ghost use Rattle.ct_session.specs.Sessions.{SessionState, is_open as open_in};
ghost use Rattle.ct_database.specs.Waiting.{AreStoredIn};
ghost use Rattle.ct_sessions.specs.Holds.{Holds};
ghost use Rattle.ct_sessions.specs.Seats.{state_in};
ghost use Rattle.ct_core.specs.Range.{ActIsKept, DecisionIsKept, HasTables, Reaches};
ghost use Rattle.ct_core.specs.Seeing.{IsEnvOf, Sees, seen_with};
ghost use Rattle.ct_core.specs.Suits.{Suits, bound_of};

use crate::assign::{decide_declare, decide_set};
use crate::reads::selected;
use crate::writing::{is_open, write_once};
use ct_bind::bind;
use ct_blocking::blocked_table;
use ct_database::Database;
use ct_expr::Env;
use ct_machine::Decision;
use ct_session::Tran;
use ct_sessions::Sessions;
use ct_source::Stored;
use ct_types::{
    Act, Bound, BoundSelect, Command, Copies, Isolation, List, Memory, Refusal, Reply, Stmt, Write,
    push,
};
use std::alloc::Global;

fn decide_select(
    alloc: Global,
    db: &Database,
    env: &Env<'_>,
    query: &BoundSelect,
) -> Result<Decision, Memory>
    requires { IsEnvOf db.now env.now }
    ensures is { IfOk result (λ made. made ≡ spec.answered (selected_in (seen_with db.now env.now) query.now)) }
    ensures kept { (newest seen : Db) (state : SessionState) → IfOk result (DecisionIsKept newest seen state) }
{
    match selected(alloc, db, env, query) {
        Ok(grid) => Ok(Decision::Answers(Reply::Rows(grid))),
        Err(Refusal::Memory) => Err(Memory),
        Err(refusal) => Ok(Decision::Refuses(refusal)),
    }
}

/// What a SELECT comes to, which is let go.
fn select_once(
    alloc: Global,
    db: &Database,
    env: &Env<'_>,
    query: BoundSelect,
) -> Result<Decision, Memory>
    requires { IsEnvOf db.now env.now }
    ensures is { IfOk result (λ made. made ≡ spec.answered (selected_in (seen_with db.now env.now) query)) }
    ensures kept { (newest seen : Db) (state : SessionState) → IfOk result (DecisionIsKept newest seen state) }
{
    decide_select(alloc, db, env, &query)
}

fn is_snapshot(level: Isolation) -> bool
    ensures { result ≡ spec.is_snapshot level }
{
    match level {
        Isolation::Snapshot => true,
        Isolation::ReadCommitted => false,
    }
}

/// 1222 where another session holds a key of a table, if there is the table.
fn holder_of(
    alloc: Global,
    sessions: &Sessions,
    number: u8,
    id: u32,
    table: Option<&Stored>,
) -> Result<Option<Refusal>, Memory>
    ensures { IfOk result (λ made. (m : Machine) → Holds sessions.now m → made ≡ option_and_then (λ it. table_blocked m.sessions number it.schema.name id) (option_copied table.entry)) }
{
    match table {
        None => Ok(None),
        Some(table) => blocked_table(alloc, sessions.locks(), number, &table.schema().name, id),
    }
}

/// What an act on a table comes to: no other session may hold a key of it.
fn altered(
    alloc: Global,
    sessions: &Sessions,
    number: u8,
    db: &Database,
    id: u32,
    act: Act,
) -> Result<Decision, Memory>
    ensures is { IfOk result (λ made. (m : Machine) → Holds sessions.now m → made ≡ spec.altered m number id (table_of db.now.tables id) act) }
    ensures kept { (newest seen : Db) (state : SessionState) → ActIsKept newest act → IfOk result (DecisionIsKept newest seen state) }
{
    match holder_of(alloc, sessions, number, id, db.table(id))? {
        None => Ok(Decision::Commits(act, Reply::Done)),
        Some(refusal) => Ok(Decision::Refuses(refusal)),
    }
}

/// Writes, copied.
fn copied(alloc: Global, writes: &[Write]) -> Result<List<Write>, Memory>
    ensures { IfOk result (λ made. made ≡ writes.now) }
{
    let mut made = List::new(alloc);
    for write in writes {
        push(&mut made, write.copy(alloc)?)?;
    }
    Ok(made)
}

/// Writes that wait, copied, where there are some: COMMIT makes one entry of them, and where there are none, there is none.
pub(crate) fn waiting(alloc: Global, writes: &[Write]) -> Result<Option<List<Write>>, Memory>
    ensures { IfOk result (λ made. MatchOption made (spec.commits writes.now ≡ decision.Ends) (λ copies. (copies ≡ writes.now) × (spec.commits writes.now ≡ decision.Commits (Commit copies) Done))) }
{
    if writes.is_empty() {
        return Ok(None);
    }
    Ok(Some(copied(alloc, writes)?))
}

/// What COMMIT comes to.
fn commits(alloc: Global, writes: &[Write]) -> Result<Decision, Memory>
    ensures is { IfOk result (λ made. made ≡ spec.commits writes.now) }
    ensures kept { (newest seen : Db) (state : SessionState) → AreStoredIn newest.tables writes.now → IfOk result (DecisionIsKept newest seen state) }
{
    match waiting(alloc, writes)? {
        None => Ok(Decision::Ends),
        Some(writes) => Ok(Decision::Commits(Act::Commit(writes), Reply::Done)),
    }
}

/// What a bound statement comes to.
#[tactic(auto, unfolding(ct_machine::specs::Decide::decide_bound))]
fn decide_bound(
    alloc: Global,
    sessions: &Sessions,
    number: u8,
    db: &Database,
    env: &Env<'_>,
    statement: &Stmt,
    bound: Bound,
) -> Result<Decision, Memory>
    requires env { IsEnvOf db.now env.now }
    requires variables { env.now.variables.0 ≡ (state_in sessions.now.seats number).variables }
    requires limits { KeepsLimits bound }
    requires stores { StoresWell (catalogue_of db.now) bound }
    requires suits { Suits (state_in sessions.now.seats number).tran env.now.variables.0 statement.now bound }
    ensures is { IfOk result (λ made. (m : Machine) → Sees sessions.now number db.now env.now m → made ≡ spec.decide_bound m number statement.now bound) }
    ensures kept { (newest : Db) → Reaches newest db.now (state_in sessions.now.seats number) → IfOk result (DecisionIsKept newest db.now (state_in sessions.now.seats number)) }
{
    match bound {
        Bound::AcceptOption | Bound::SetLockTimeout => Ok(Decision::Answers(Reply::Done)),
        Bound::AlterDatabase(keep) => Ok(Decision::Commits(Act::Database(keep), Reply::Done)),
        Bound::CreateTable(schema) => Ok(Decision::Commits(Act::Define(schema), Reply::Done)),
        Bound::EnableTracking { table, masks } => {
            altered(
                alloc,
                sessions,
                number,
                db,
                table,
                Act::Enable { table, masks },
            )
        }
        Bound::DisableTracking { table } => {
            altered(alloc, sessions, number, db, table, Act::Disable(table))
        }
        Bound::TruncateTable { table } => {
            altered(alloc, sessions, number, db, table, Act::Truncate(table))
        }
        Bound::Write(write) => write_once(alloc, sessions, number, db, env, write),
        Bound::Select(query) => select_once(alloc, db, env, query),
        Bound::Begin => Ok(Decision::Begins),
        Bound::Commit => commits(alloc, sessions.pending(number)),
        Bound::Rollback => Ok(Decision::Ends),
        Bound::SetIsolation(level) => Ok(Decision::Isolates(is_snapshot(level))),
        Bound::SetVariable { variable, value } => {
            decide_set(alloc, db, env, statement, variable, value)
        }
        Bound::Declare {
            variable,
            kind,
            value,
        } => decide_declare(alloc, db, env, variable, kind, value),
    }
}

/// What a sentence means among the tables and the variables.
fn bound_among(
    alloc: Global,
    db: &Database,
    env: &Env<'_>,
    statement: &Stmt,
) -> Result<Bound, Refusal>
    requires { HasTables db.now }
    ensures value { Gives (bound_of (seen_with db.now env.now) statement.now) result }
    ensures limits { IfOk result KeepsLimits }
{
    bind(alloc, statement, db.catalogue(), db.keep(), env.variables)
}

/// The same, which the database can store, and which suits the variables and the transaction.
fn bound(
    alloc: Global,
    db: &Database,
    env: &Env<'_>,
    tran: Tran,
    statement: &Stmt,
) -> Result<Bound, Refusal>
    requires tables { HasTables db.now }
    requires may { spec.allowed tran statement.now ≡ Ok tt }
    ensures value { Gives (bound_of (seen_with db.now env.now) statement.now) result }
    ensures limits { IfOk result KeepsLimits }
    ensures stores { IfOk result (StoresWell (catalogue_of db.now)) }
    ensures suits { IfOk result (Suits tran env.now.variables.0 statement.now) }
{
    bound_among(alloc, db, env, statement)
}

fn decide_sentence(
    alloc: Global,
    sessions: &Sessions,
    number: u8,
    db: &Database,
    env: &Env<'_>,
    statement: &Stmt,
) -> Result<Decision, Memory>
    requires tables { HasTables db.now }
    requires env { IsEnvOf db.now env.now }
    requires variables { env.now.variables.0 ≡ (state_in sessions.now.seats number).variables }
    requires may { spec.allowed (state_in sessions.now.seats number).tran statement.now ≡ Ok tt }
    ensures is { IfOk result (λ made. (m : Machine) → Sees sessions.now number db.now env.now m → made ≡ spec.once_bound m number statement.now (bound_of (seen_with db.now env.now) statement.now)) }
    ensures kept { (newest : Db) → Reaches newest db.now (state_in sessions.now.seats number) → IfOk result (DecisionIsKept newest db.now (state_in sessions.now.seats number)) }
{
    match bound(alloc, db, env, sessions.tran(number), statement) {
        Ok(bound) => decide_bound(alloc, sessions, number, db, env, statement, bound),
        Err(Refusal::Memory) => Err(Memory),
        Err(refusal) => Ok(Decision::Refuses(refusal)),
    }
}

/// Whether a statement stands in no transaction.
fn outside(tran: Tran) -> Result<(), Refusal>
    ensures { result ≡ demand (not (open_in tran)) InTransaction }
{
    if is_open(tran) {
        Err(Refusal::InTransaction)
    } else {
        Ok(())
    }
}

/// Whether a statement stands in a transaction, or else this refusal.
fn inside(tran: Tran, refusal: Refusal) -> Result<(), Refusal>
    ensures { result ≡ demand (open_in tran) refusal }
{
    if is_open(tran) { Ok(()) } else { Err(refusal) }
}

/// Whether a statement may stand where it stands.
fn allowed(tran: Tran, statement: &Stmt) -> Result<(), Refusal>
    ensures { result ≡ spec.allowed tran statement.now }
{
    match statement {
        Stmt::Commit => inside(tran, Refusal::NoCommit),
        Stmt::Rollback => inside(tran, Refusal::NoRollback),
        Stmt::Begin
        | Stmt::AlterDatabase { .. }
        | Stmt::CreateTable { .. }
        | Stmt::EnableTracking { .. }
        | Stmt::DisableTracking { .. }
        | Stmt::TruncateTable { .. } => outside(tran),
        Stmt::Write { .. }
        | Stmt::Select(_)
        | Stmt::SetIsolation(_)
        | Stmt::SetLockTimeout
        | Stmt::SetVariable { .. }
        | Stmt::Declare { .. } => Ok(()),
    }
}

/// What a sentence comes to.
fn decide_allowed(
    alloc: Global,
    sessions: &Sessions,
    number: u8,
    db: &Database,
    env: &Env<'_>,
    statement: &Stmt,
) -> Result<Decision, Memory>
    requires tables { HasTables db.now }
    requires env { IsEnvOf db.now env.now }
    requires variables { env.now.variables.0 ≡ (state_in sessions.now.seats number).variables }
    ensures is { IfOk result (λ made. (m : Machine) → Sees sessions.now number db.now env.now m → made ≡ spec.once_allowed m number statement.now (spec.allowed (state_in sessions.now.seats number).tran statement.now)) }
    ensures kept { (newest : Db) → Reaches newest db.now (state_in sessions.now.seats number) → IfOk result (DecisionIsKept newest db.now (state_in sessions.now.seats number)) }
{
    match allowed(sessions.tran(number), statement) {
        Ok(()) => decide_sentence(alloc, sessions, number, db, env, statement),
        Err(refusal) => Ok(Decision::Refuses(refusal)),
    }
}

/// What a statement of a session comes to that sees a database whose tables have at most 64 columns each.
#[tactic(auto, unfolding(ct_machine::specs::Decide::decide))]
pub(crate) fn decide_command(
    alloc: Global,
    sessions: &Sessions,
    number: u8,
    db: &Database,
    env: &Env<'_>,
    what: &Command,
) -> Result<Decision, Memory>
    requires tables { HasTables db.now }
    requires env { IsEnvOf db.now env.now }
    requires variables { env.now.variables.0 ≡ (state_in sessions.now.seats number).variables }
    ensures is { IfOk result (λ made. (m : Machine) → Sees sessions.now number db.now env.now m → made ≡ spec.decide m number what.now) }
    ensures kept { (newest : Db) → Reaches newest db.now (state_in sessions.now.seats number) → IfOk result (DecisionIsKept newest db.now (state_in sessions.now.seats number)) }
{
    match what {
        Command::Wrong(refusal) => Ok(Decision::Refuses(refusal.copy(alloc)?)),
        Command::Sql(statement) => decide_allowed(alloc, sessions, number, db, env, statement),
        Command::Advance(_)
        | Command::Raise
        | Command::Sweep(_)
        | Command::CheckpointBegin
        | Command::CheckpointPiece
        | Command::CheckpointFinish
        | Command::Sync { .. }
        | Command::Look { .. }
        | Command::Pull { .. }
        | Command::Copy { .. } => Ok(Decision::Refuses(Refusal::NotBuilt)),
    }
}
