ghost use Rattle.std.specs.Prelude.{◌≡◌, map, IfOk};
ghost use Rattle.ct_types.specs.Answers.{Gives, each};
ghost use Rattle.ct_source.specs.Rows.{lent};
ghost use Rattle.ct_write.specs.Rows as spec;

use crate::values::{assign, nulls, set_columns, set_values, tuple_values};
use ct_expr::{Env, Versions};
use ct_model::key_of_row;
use ct_scan::rows_where;
use ct_source::{Source, Stored};
use ct_types::{
    BoundExpr, BoundSet, Copies, Key, List, Memory, Refusal, Row, RowChange, Schema, push,
};
use sqlite_items::Items;
use std::alloc::Global;

/// A row that a statement changes: its key, and the row after the change; none where it is deleted.
#[derive(Debug, Drop)]
pub(crate) struct Changed {
    pub key: Key,
    pub row: Option<Row>,
}

fn insert_one<L: Versions>(
    alloc: Global,
    schema: &Schema,
    columns: &[u16],
    tuple: &[BoundExpr],
    env: &Env<'_>,
    versions: &L,
) -> Result<Changed, Refusal>
    ensures { Gives (spec.inserted (record { env = env.now; versions = L.row_of versions.now }) schema.now columns.now tuple.now) result }
{
    let none = Row(List::new(alloc));
    let values = tuple_values(alloc, tuple, &none, env, versions)?;
    let mut row = nulls(alloc, schema.columns.as_slice())?;
    assign(alloc, columns, values.as_slice(), &mut row)?;
    let row = Row(List::from_vec(row));
    let key = key_of_row(alloc, schema, &row)?;
    Ok(Changed {
        key,
        row: Some(row),
    })
}

fn insert_all<L: Versions>(
    alloc: Global,
    schema: &Schema,
    columns: &[u16],
    tuples: &[Items<BoundExpr>],
    env: &Env<'_>,
    versions: &L,
) -> Result<List<Changed>, Refusal>
    ensures { Gives (each (spec.inserted (record { env = env.now; versions = L.row_of versions.now }) schema.now columns.now) tuples.now) result }
{
    let mut changes = List::new(alloc);
    for tuple in tuples {
        let made = insert_one(alloc, schema, columns, tuple.as_slice(), env, versions)?;
        push(&mut changes, made)?;
    }
    Ok(changes)
}

fn update_one<L: Versions>(
    alloc: Global,
    schema: &Schema,
    sets: &[BoundSet],
    before: &Row,
    env: &Env<'_>,
    versions: &L,
) -> Result<Changed, Refusal>
    ensures { Gives (spec.updated (record { env = env.now; versions = L.row_of versions.now }) schema.now sets.now before.now) result }
{
    let values = set_values(alloc, sets, before, env, versions)?;
    let columns = set_columns(alloc, sets)?;
    let mut row = before.0.copy(alloc)?.into_vec();
    assign(alloc, columns.as_slice(), values.as_slice(), &mut row)?;
    Ok(Changed {
        key: key_of_row(alloc, schema, before)?,
        row: Some(Row(List::from_vec(row))),
    })
}

fn update_all<L: Versions>(
    alloc: Global,
    schema: &Schema,
    sets: &[BoundSet],
    rows: &[&Row],
    env: &Env<'_>,
    versions: &L,
) -> Result<List<Changed>, Refusal>
    ensures { Gives (each (spec.updated (record { env = env.now; versions = L.row_of versions.now }) schema.now sets.now) (lent rows.now)) result }
{
    let mut changes = List::new(alloc);
    for before in rows {
        push(
            &mut changes,
            update_one(alloc, schema, sets, before, env, versions)?,
        )?;
    }
    Ok(changes)
}

fn delete_all(alloc: Global, schema: &Schema, rows: &[&Row]) -> Result<List<Changed>, Memory>
    ensures { IfOk result (λ changes. changes ≡ map (spec.deleted schema.now) (lent rows.now)) }
{
    let mut changes = List::new(alloc);
    for row in rows {
        changes.push(Changed {
            key: key_of_row(alloc, schema, row)?,
            row: None,
        })?;
    }
    Ok(changes)
}

/// The rows that a statement changes, in the order of VALUES or of the rows, before they are fitted.
pub(crate) fn changes_of<L: Versions>(
    alloc: Global,
    table: &Stored,
    change: &RowChange,
    env: &Env<'_>,
    versions: &L,
) -> Result<List<Changed>, Refusal>
    ensures { Gives (spec.changes_of (record { env = env.now; versions = L.row_of versions.now }) table.now.schema change.now table.now.rows) result }
{
    let schema = table.schema();
    match change {
        RowChange::Insert { columns, tuples } => {
            let columns = columns.as_slice();
            insert_all(alloc, schema, columns, tuples.as_slice(), env, versions)
        }
        RowChange::Update { sets, filter } => {
            let rows = rows_where(alloc, filter, Source::Stored(table), env, versions)?;
            let sets = sets.as_slice();
            update_all(alloc, schema, sets, rows.as_slice(), env, versions)
        }
        RowChange::Delete { filter } => {
            let rows = rows_where(alloc, filter, Source::Stored(table), env, versions)?;
            Ok(delete_all(alloc, schema, rows.as_slice())?)
        }
    }
}
