ghost use Rattle.std.specs.Prelude.{◌≡◌, map, IfOk};
ghost use Rattle.ct_types.specs.Answers.{Gives, each};
ghost use Rattle.ct_types.specs.declared.bound.BoundSource.TheVariants as source;
ghost use Rattle.ct_types.specs.declared.bound.Join.TheVariants as join;
ghost use Rattle.ct_expr.specs.Meaning.{on, value as value_on};
ghost use Rattle.ct_machine.specs.Reads as spec;
ghost use Rattle.ct_model.specs.Net.{net as net_changes};
ghost use Rattle.ct_model.specs.Tables.{table_of};
ghost use Rattle.ct_source.specs.Sources.{source_rows};
ghost use Rattle.ct_model.specs.Versions.{current as current_version};
ghost use Rattle.ct_write.specs.Rows.{no_row};
ghost use Rattle.ct_core.specs.Rows as steps;
ghost use Rattle.ct_core.specs.Seeing.{IsEnvOf, seen_with};

use crate::changes::show_changes;
use crate::system::{commit_rows, tracking_rows};
use crate::versions::{LastVersions, version_on, versions_on};
use ct_database::Database;
use ct_expr::{Env, eval};
use ct_query::select;
use ct_source::Source;
use ct_types::{
    BoundExpr, BoundRowVersion, BoundSelect, BoundSource, Grid, Join, List, Memory, Refusal, Row,
    Value, Variables, push,
};
use std::alloc::Global;

fn current(db: &Database) -> Option<u64>
    ensures { result ≡ current_version db.now }
{
    match db.keep() {
        None => None,
        Some(_) => Some(db.version()),
    }
}

/// What expressions may ask for beside their row. It is lent, and nothing is copied.
pub(crate) fn env<'a>(db: &'a Database, variables: &'a Variables) -> Env<'a>
    ensures is { IsEnvOf db.now result }
    ensures variables { result.variables ≡ variables.now }
{
    Env {
        variables,
        current: current(db),
        tables: db.catalogue(),
    }
}

/// The version that the second argument of CHANGETABLE(CHANGES ..) gives; NULL gives none.
fn since(value: &Value) -> Option<i64>
    ensures { result ≡ spec.since_of value.now }
{
    match value {
        Value::Int(number) => Some(*number),
        Value::Null | Value::Text(_) | Value::Bytes(_) => None,
    }
}

/// The rows that CHANGETABLE(CHANGES ..) shows of a table since the version that a value gives.
fn changes_since(
    alloc: Global,
    db: &Database,
    table: u32,
    last: &Value,
) -> Result<List<Row>, Memory>
    ensures { IfOk result (λ made. made ≡ map spec.shown (net_changes db.now table (spec.since_of last.now))) }
{
    let changes = db.net(alloc, table, since(last))?;
    show_changes(alloc, changes.as_slice())
}

/// The value of an expression that names no column.
pub(crate) fn value_of(
    alloc: Global,
    db: &Database,
    env: &Env<'_>,
    expr: &BoundExpr,
) -> Result<Value, Refusal>
    requires { IsEnvOf db.now env.now }
    ensures { Gives (value_on (on (spec.world_of (seen_with db.now env.now)) no_row) expr.now) result }
{
    let row = Row(List::new(alloc));
    eval(alloc, expr, &row, env, &LastVersions { db })
}

fn changes_rows(
    alloc: Global,
    db: &Database,
    env: &Env<'_>,
    table: u32,
    last: &BoundExpr,
) -> Result<List<Row>, Refusal>
    requires { IsEnvOf db.now env.now }
    ensures { Gives (spec.changes_rows (seen_with db.now env.now) table last.now) result }
{
    let last = value_of(alloc, db, env, last)?;
    Ok(changes_since(alloc, db, table, &last)?)
}

/// The one row of CHANGETABLE(VERSION ..) whose values name no column.
fn version_rows(
    alloc: Global,
    db: &Database,
    env: &Env<'_>,
    version: &BoundRowVersion,
) -> Result<List<Row>, Refusal>
    requires { IsEnvOf db.now env.now }
    ensures { Gives (spec.source_rows (seen_with db.now env.now) (source.Version version.now)) result }
{
    let none = Row(List::new(alloc));
    let mut made = List::new(alloc);
    push(&mut made, version_on(alloc, db, env, version, &none)?)?;
    Ok(made)
}

/// The rows that are made for a source; those of a table are lent.
fn made_rows(
    alloc: Global,
    db: &Database,
    env: &Env<'_>,
    source: &Option<BoundSource>,
) -> Result<List<Row>, Refusal>
    requires { IsEnvOf db.now env.now }
    ensures { Gives (steps.made_rows (seen_with db.now env.now) source.now) result }
{
    match source {
        None | Some(BoundSource::Table(_)) => Ok(List::new(alloc)),
        Some(BoundSource::Changes { table, since }) => changes_rows(alloc, db, env, *table, since),
        Some(BoundSource::Version(version)) => version_rows(alloc, db, env, version),
        Some(BoundSource::CommitTable) => Ok(commit_rows(alloc, db)?),
        Some(BoundSource::TrackingTables) => Ok(tracking_rows(alloc, db.catalogue())?),
    }
}

/// The rows of a VERSION of CROSS APPLY: one for each left row.
fn applied_rows(
    alloc: Global,
    db: &Database,
    env: &Env<'_>,
    version: &BoundRowVersion,
    left: Source<'_>,
) -> Result<List<Row>, Refusal>
    requires { IsEnvOf db.now env.now }
    ensures { Gives (each (spec.version_on (seen_with db.now env.now) version.now) (source_rows left.entry)) result }
{
    let lefts = left.all(alloc)?;
    versions_on(alloc, db, env, version, lefts.as_slice())
}

/// The rows that are made for the right source of CROSS APPLY.
fn made_apply(
    alloc: Global,
    db: &Database,
    env: &Env<'_>,
    right: &Option<BoundSource>,
    left: Source<'_>,
) -> Result<List<Row>, Refusal>
    requires { IsEnvOf db.now env.now }
    ensures { Gives (steps.made_right (seen_with db.now env.now) join.Apply right.now (source_rows left.entry)) result }
{
    match right {
        Some(BoundSource::Version(version)) => applied_rows(alloc, db, env, version, left),
        None
        | Some(
            BoundSource::Table(_)
            | BoundSource::Changes { .. }
            | BoundSource::CommitTable
            | BoundSource::TrackingTables,
        ) => made_rows(alloc, db, env, right),
    }
}

/// The rows that are made for the right source.
fn made_right(
    alloc: Global,
    db: &Database,
    env: &Env<'_>,
    query: &BoundSelect,
    left: Source<'_>,
) -> Result<List<Row>, Refusal>
    requires { IsEnvOf db.now env.now }
    ensures { Gives (steps.made_right (seen_with db.now env.now) query.now.plan.join query.now.right (source_rows left.entry)) result }
{
    match query.plan.join {
        Join::Apply => made_apply(alloc, db, env, &query.right, left),
        Join::One | Join::Inner | Join::Left | Join::Right => {
            made_rows(alloc, db, env, &query.right)
        }
    }
}

/// The rows of a table; one that is not there has none.
fn table_rows(db: &Database, table: u32) -> Source<'_>
    ensures { source_rows result ≡ spec.rows_of (table_of db.now.tables table) }
{
    match db.table(table) {
        None => Source::Listed(&[]),
        Some(table) => Source::Stored(table),
    }
}

/// The rows of a source, of which some were made.
fn chosen_rows<'a>(db: &'a Database, source: &Option<BoundSource>, made: &'a [Row]) -> Source<'a>
    ensures { source_rows result ≡ steps.chosen_rows db.now source.now made.now }
{
    match source {
        Some(BoundSource::Table(table)) => table_rows(db, *table),
        _ => Source::Listed(made),
    }
}

/// What a SELECT answers.
#[tactic(auto, using(crate::proofs::Rows::optional_made, crate::proofs::Rows::right_made))]
pub(crate) fn selected(
    alloc: Global,
    db: &Database,
    env: &Env<'_>,
    query: &BoundSelect,
) -> Result<Grid, Refusal>
    requires { IsEnvOf db.now env.now }
    ensures { Gives (spec.selected (seen_with db.now env.now) query.now) result }
{
    let lefts = made_rows(alloc, db, env, &query.left)?;
    let left = chosen_rows(db, &query.left, lefts.as_slice());
    let rights = made_right(alloc, db, env, query, left)?;
    let right = chosen_rows(db, &query.right, rights.as_slice());
    select(alloc, &query.plan, left, right, env, &LastVersions { db })
}
