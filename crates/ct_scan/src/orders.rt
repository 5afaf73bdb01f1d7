ghost use Rattle.std.specs.Prelude.{◌<◌, ◌↔◌, ◌≡◌, ◌+◌, ◌∷◌, [], IfOk, IsTrue, None, Some, length};
ghost use Rattle.ct_scan.specs.Enough.{StandAlike};
ghost use Rattle.ct_scan.specs.Steps as spec;
ghost use Rattle.ct_source.specs.Sources.{source_rows};

use crate::conditions::key_place;
use crate::reading::pinned;
use crate::seen::Seen;
use ct_bind_names::place_after;
use ct_expr::Env;
use ct_source::{Source, Stored};
use ct_types::{BoundExpr, Memory, Row, Value, cmp_value};
use std::alloc::Global;
use std::cmp::Ordering;

/// Whether there is a value, and it is above the last one.
fn is_above(last: &Option<Value>, value: &Option<Value>) -> bool
    ensures { IsTrue result ↔ spec.IsAbove last.now value.now }
{
    match (last, value) {
        (_, None) => false,
        (None, Some(_)) => true,
        (Some(last), Some(value)) => cmp_value(last, value) == Ordering::Less,
    }
}

/// Whether ON pins the column at a place of the left rows for each of these right rows, to values that rise.
fn pins_rise(
    alloc: Global,
    on: &BoundExpr,
    at: u32,
    columns: u32,
    rights: &[Row],
    env: &Env<'_>,
) -> Result<bool, Memory>
    ensures { IfOk result (λ rise. IsTrue rise → spec.PinsRise env.now on.now at columns None rights.now) }
{
    let mut last = None;
    for right in rights {
        let value = pinned(alloc, on, at, env, &Seen::row(columns, right))?;
        if !is_above(&last, &value) {
            return Ok(false);
        }
        last = value;
    }
    Ok(true)
}

/// Whether the pairs of a table's rows with these right rows stand alike by either side, as the values at a place tell that
/// ON pins.
fn alike_at(
    alloc: Global,
    on: &BoundExpr,
    at: u32,
    lefts: &Stored,
    rights: &[Row],
    env: &Env<'_>,
) -> Result<bool, Memory>
    requires { lefts.now.schema.key ≡ (at + 1) ∷ [] }
    ensures { IfOk result (λ alike. IsTrue alike → StandAlike env.now (Some on.now) lefts.now.rows rights.now) }
{
    lefts.rows_rise();
    let columns = place_after(0, lefts.schema().columns.as_slice().len())?;
    pins_rise(alloc, on, at, columns, rights, env)
}

/// The same of a table with any key.
fn stored_alike(
    alloc: Global,
    on: &BoundExpr,
    lefts: &Stored,
    rights: &[Row],
    env: &Env<'_>,
) -> Result<bool, Memory>
    ensures { IfOk result (λ alike. IsTrue alike → StandAlike env.now (Some on.now) lefts.now.rows rights.now) }
{
    match key_place(lefts) {
        Some(at) => alike_at(alloc, on, at, lefts, rights, env),
        None => Ok(false),
    }
}

/// Whether it is seen that the pairs of an INNER JOIN are the same, in the same order and with the same refusal, by right row
/// and then left row as by left row and then right row. It is where the left source is a table and the right one a list, for
/// each row of which ON pins the table's key, to values that rise, as the changes of a table have rising keys. This project's
/// own.
pub fn stand_alike(
    alloc: Global,
    on: &Option<BoundExpr>,
    lefts: Source<'_>,
    rights: Source<'_>,
    env: &Env<'_>,
) -> Result<bool, Memory>
    ensures { IfOk result (λ alike. IsTrue alike → StandAlike env.now on.now (source_rows lefts.entry) (source_rows rights.entry)) }
{
    match (on, lefts, rights) {
        (Some(on), Source::Stored(table), Source::Listed(rows)) => {
            stored_alike(alloc, on, table, rows, env)
        }
        _ => Ok(false),
    }
}
