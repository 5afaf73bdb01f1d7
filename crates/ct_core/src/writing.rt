ghost use Rattle.std.specs.Prelude.{◌≡◌, false, Ok, Some, IfOk, IfSome, slice_get};
ghost use Rattle.std.specs.List.{AllByRecursion};
ghost use Rattle.ct_types.specs.Answers.{Gives};
ghost use Rattle.ct_model.specs.Tables.{catalogued as catalogued_table, table_of};
ghost use Rattle.ct_write.specs.Duplicates.{duplicate};
ghost use Rattle.ct_write.specs.Writes.{NamesIds, SparesKey, writes_of};
ghost use Rattle.ct_machine.specs.Decide as spec;
ghost use Rattle.ct_machine.specs.Reads.{world_of};
ghost use Rattle.ct_state.specs.Machine.{Machine};
ghost use Rattle.ct_model.specs.declared.db.Db.{Db};
ghost use Rattle.ct_session.specs.Sessions.{SessionState, is_open};
ghost use Rattle.ct_sessions.specs.Holds.{Holds};
ghost use Rattle.ct_sessions.specs.Seats.{state_in};
ghost use Rattle.ct_source.specs.Rows.{IsRowOf};
ghost use Rattle.ct_core.specs.Range.{DecisionIsKept, Reaches, WritesReach};
ghost use Rattle.ct_core.specs.Seeing.{IsEnvOf, Sees, seen_with};
ghost use Rattle.ct_core.specs.Steps as steps;

use crate::versions::LastVersions;
use ct_blocking::blocked_keys;
use ct_database::Database;
use ct_expr::Env;
use ct_machine::Decision;
use ct_session::Tran;
use ct_sessions::Sessions;
use ct_source::Stored;
use ct_types::{Act, BoundWrite, Copies, Key, List, Memory, Refusal, Reply, Schema, Write};
use ct_write::{duplicate, writes};
use std::alloc::Global;

fn key_at(alloc: Global, writes: &[Write], place: usize) -> Result<Key, Memory>
    ensures { IfOk result (λ made. made ≡ spec.key_in (slice_get writes.now place)) }
{
    match writes.get(place) {
        None => Ok(Key(List::new(alloc))),
        Some(write) => write.key.copy(alloc),
    }
}

/// Writes of a table wait where a transaction is open, and else commit; a statement that writes no row does neither.
fn counted(waits: bool, writes: List<Write>) -> Decision
    ensures is { result ≡ spec.counted waits writes }
    ensures kept { (newest db : Db) (state : SessionState) → waits ≡ is_open state.tran → WritesReach newest db state writes → DecisionIsKept newest db state result }
{
    let count = writes.as_slice().len() as u64;
    if count == 0 {
        return Decision::Answers(Reply::Count(0));
    }
    if waits {
        Decision::Pends(writes, Reply::Count(count))
    } else {
        Decision::Commits(Act::Commit(writes), Reply::Count(count))
    }
}

/// Whether a transaction is open.
pub(crate) fn is_open(tran: Tran) -> bool
    ensures { result ≡ is_open tran }
{
    !matches!(tran, Tran::None)
}

/// Refused where an insert repeats a key.
fn without_duplicates(
    alloc: Global,
    tran: Tran,
    table: &Stored,
    writes: List<Write>,
) -> Result<Decision, Memory>
    ensures is { IfOk result (λ made. made ≡ spec.without_duplicates tran table.now writes (duplicate table.now.schema table.now.rows writes)) }
    ensures kept { (newest db : Db) (state : SessionState) → tran ≡ state.tran → WritesReach newest db state writes → IfOk result (DecisionIsKept newest db state) }
{
    match duplicate(writes.as_slice(), table) {
        None => Ok(counted(is_open(tran), writes)),
        Some(place) => Ok(Decision::Refuses(Refusal::Duplicate {
            table: table.schema().name.copy(alloc)?,
            key: key_at(alloc, writes.as_slice(), place)?,
        })),
    }
}

/// What keeps writes out of a table, where something does: a key that another session holds, or a change after the view.
fn kept_out(
    alloc: Global,
    sessions: &Sessions,
    number: u8,
    schema: &Schema,
    writes: &[Write],
) -> Result<Option<Decision>, Memory>
    ensures is { IfOk result (λ made. (m : Machine) → Holds sessions.now m → made ≡ steps.kept_out m number schema.now writes.now) }
    ensures kept { (newest db : Db) (state : SessionState) → IfOk result (λ made. IfSome made (DecisionIsKept newest db state)) }
{
    if let Some(refusal) = blocked_keys(alloc, sessions.locks(), number, &schema.name, writes)? {
        return Ok(Some(Decision::Refuses(refusal)));
    }
    match sessions.conflict(number, &schema.name, schema.id, writes)? {
        None => Ok(None),
        Some(refusal) => Ok(Some(Decision::Aborts(refusal))),
    }
}

/// What writes that fit their table come to.
fn fitted(
    alloc: Global,
    sessions: &Sessions,
    number: u8,
    table: &Stored,
    writes: List<Write>,
) -> Result<Decision, Memory>
    ensures is { IfOk result (λ made. (m : Machine) → Holds sessions.now m → made ≡ spec.fitted m number table.now (Ok writes)) }
    ensures kept { (newest db : Db) → WritesReach newest db (state_in sessions.now.seats number) writes → IfOk result (DecisionIsKept newest db (state_in sessions.now.seats number)) }
{
    match kept_out(alloc, sessions, number, table.schema(), writes.as_slice())? {
        Some(decision) => Ok(decision),
        None => without_duplicates(alloc, sessions.tran(number), table, writes),
    }
}

/// What a statement writes in its table.
fn writes_on(
    alloc: Global,
    db: &Database,
    env: &Env<'_>,
    write: &BoundWrite,
    table: &Stored,
) -> Result<List<Write>, Refusal>
    requires env { IsEnvOf db.now env.now }
    requires ids { NamesIds write.now.change }
    requires spares { SparesKey table.now.schema write.now.change }
    ensures gives { Gives (writes_of (world_of (seen_with db.now env.now)) (catalogued_table table.now) write.now table.now.rows) result }
    ensures keyed { IfOk result (λ made. AllByRecursion (λ one. IfSome one.row (IsRowOf table.now.schema one.key)) made) }
{
    writes(alloc, write, table, env, &LastVersions { db })
}

fn write_to(
    alloc: Global,
    sessions: &Sessions,
    number: u8,
    db: &Database,
    env: &Env<'_>,
    write: &BoundWrite,
    table: &Stored,
) -> Result<Decision, Memory>
    requires env { IsEnvOf db.now env.now }
    requires ids { NamesIds write.now.change }
    requires spares { SparesKey table.now.schema write.now.change }
    requires there { table_of db.now.tables write.now.table ≡ Some table.now }
    ensures is { IfOk result (λ made. (m : Machine) → Sees sessions.now number db.now env.now m → made ≡ spec.written m number write.now (Some table.now)) }
    ensures kept { (newest : Db) → Reaches newest db.now (state_in sessions.now.seats number) → IfOk result (DecisionIsKept newest db.now (state_in sessions.now.seats number)) }
{
    match writes_on(alloc, db, env, write, table) {
        Ok(writes) => fitted(alloc, sessions, number, table, writes),
        Err(Refusal::Memory) => Err(Memory),
        Err(refusal) => Ok(Decision::Refuses(refusal)),
    }
}

fn decide_write(
    alloc: Global,
    sessions: &Sessions,
    number: u8,
    db: &Database,
    env: &Env<'_>,
    write: &BoundWrite,
) -> Result<Decision, Memory>
    requires env { IsEnvOf db.now env.now }
    requires ids { NamesIds write.now.change }
    requires spares { IfSome (table_of db.now.tables write.now.table) (λ table. SparesKey table.schema write.now.change) }
    ensures is { IfOk result (λ made. (m : Machine) → Sees sessions.now number db.now env.now m → made ≡ spec.written m number write.now (table_of db.now.tables write.now.table)) }
    ensures kept { (newest : Db) → Reaches newest db.now (state_in sessions.now.seats number) → IfOk result (DecisionIsKept newest db.now (state_in sessions.now.seats number)) }
{
    match db.table(write.table) {
        None => Ok(Decision::Answers(Reply::Count(0))),
        Some(table) => write_to(alloc, sessions, number, db, env, write, table),
    }
}

/// What an INSERT, UPDATE or DELETE comes to, which is let go.
pub(crate) fn write_once(
    alloc: Global,
    sessions: &Sessions,
    number: u8,
    db: &Database,
    env: &Env<'_>,
    write: BoundWrite,
) -> Result<Decision, Memory>
    requires env { IsEnvOf db.now env.now }
    requires ids { NamesIds write.change }
    requires spares { IfSome (table_of db.now.tables write.table) (λ table. SparesKey table.schema write.change) }
    ensures is { IfOk result (λ made. (m : Machine) → Sees sessions.now number db.now env.now m → made ≡ spec.written m number write (table_of db.now.tables write.table)) }
    ensures kept { (newest : Db) → Reaches newest db.now (state_in sessions.now.seats number) → IfOk result (DecisionIsKept newest db.now (state_in sessions.now.seats number)) }
{
    decide_write(alloc, sessions, number, db, env, &write)
}
