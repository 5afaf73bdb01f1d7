ghost use Rattle.std.specs.Prelude.{◌≡◌, ◌↔◌, ◌++◌, ◌∷◌, [], IsTrue, IfOk};
ghost use Rattle.std.specs.declared.cmp.Ordering.TheVariants.{Less};
ghost use Rattle.ct_types.specs.Order.{key_cmp};
ghost use Rattle.ct_applies.specs.Climbs.{ClimbsFrom};
ghost use Rattle.ct_model.specs.Tables.{key_of};
ghost use Rattle.ct_model.specs.Valid.{AreRising};

use ct_model::{cmp_row, key_of_row};
use ct_types::{Memory, Row, Schema};
use std::alloc::Global;
use std::cmp::Ordering;

/// Whether the key of a row is below that of another one.
fn is_below(alloc: Global, schema: &Schema, row: &Row, later: &Row) -> Result<bool, Memory>
    ensures { IfOk result (λ b. IsTrue b ↔ (key_cmp (key_of schema.now row.now) (key_of schema.now later.now) ≡ Less)) }
{
    let key = key_of_row(alloc, schema, later)?;
    Ok(cmp_row(schema, row, &key) == Ordering::Less)
}

/// Whether each of the rows is above the one before it, and the first above this one.
fn climb_from(alloc: Global, schema: &Schema, last: &Row, rows: &[Row]) -> Result<bool, Memory>
    ensures { IfOk result (λ b. IsTrue b ↔ ClimbsFrom schema.now last.now rows.now) }
{
    match rows {
        [] => Ok(true),
        [row, rows @ ..] => {
            if is_below(alloc, schema, last, row)? {
                climb_from(alloc, schema, row, rows)
            } else {
                Ok(false)
            }
        }
    }
}

/// Whether rows stand in strictly rising key order.
fn are_rising(alloc: Global, schema: &Schema, rows: &[Row]) -> Result<bool, Memory>
    ensures { IfOk result (λ b. IsTrue b ↔ AreRising schema.now rows.now) }
{
    match rows {
        [] => Ok(true),
        [row, rows @ ..] => climb_from(alloc, schema, row, rows),
    }
}

/// Whether rows stand in strictly rising key order behind others that do.
pub fn rise_behind(
    alloc: Global,
    schema: &Schema,
    before: &[Row],
    rows: &[Row],
) -> Result<bool, Memory>
    requires { AreRising schema.now before.now }
    ensures { IfOk result (λ b. IsTrue b ↔ AreRising schema.now (before.now ++ rows.now)) }
{
    match before.last() {
        Some(last) => climb_from(alloc, schema, last, rows),
        None => are_rising(alloc, schema, rows),
    }
}
