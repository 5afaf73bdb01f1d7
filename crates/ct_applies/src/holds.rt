ghost use Rattle.std.specs.Prelude.{◌≡◌, ◌↔◌, ◌-◌, IsTrue, slice_get};
ghost use Rattle.std.specs.List.{filter_map};
ghost use Rattle.ct_types.specs.ColumnFit.{Holds};
ghost use Rattle.ct_model.specs.Schemas.{AllHold, RowFits, KeyFits};

use ct_types::{Column, Key, Row, Schema, Value, fits, is_of_kind};

/// Whether a column may hold a value: it has the column's kind and fits it.
fn holds(column: &Column, value: &Value) -> bool
    ensures { IsTrue result ↔ Holds column.now value.now }
{
    is_of_kind(column.kind, value) && fits(column, value).is_ok()
}

fn all_hold(columns: &[Column], values: &[Value]) -> bool
    ensures { IsTrue result ↔ AllHold columns.now values.now }
{
    match columns {
        [] => match values {
            [] => true,
            [_, ..] => false,
        },
        [column, columns @ ..] => match values {
            [] => false,
            [value, values @ ..] => holds(column, value) && all_hold(columns, values),
        },
    }
}

/// Whether a row fits a table: a value for each column, which that column may hold.
pub fn row_fits(schema: &Schema, row: &Row) -> bool
    ensures { IsTrue result ↔ RowFits schema.now row.now }
{
    all_hold(schema.columns.as_slice(), row.0.as_slice())
}

/// Whether values are held by the columns of these ids, one after the other. An id without a column is left out.
fn ids_hold(columns: &[Column], ids: &[u16], values: &[Value]) -> bool
    ensures { IsTrue result ↔ AllHold (filter_map (λ id. slice_get columns.now (id - 1)) ids.now) values.now }
{
    match ids {
        [] => values.is_empty(),
        [id, ids @ ..] => match columns.get(usize::from(id.saturating_sub(1))) {
            None => ids_hold(columns, ids, values),
            Some(column) => match values {
                [] => false,
                [value, values @ ..] => holds(column, value) && ids_hold(columns, ids, values),
            },
        },
    }
}

/// Whether a key fits a table: a value for each column of the key, which that column may hold.
pub fn key_fits(schema: &Schema, key: &Key) -> bool
    ensures { IsTrue result ↔ KeyFits schema.now key.now }
{
    ids_hold(
        schema.columns.as_slice(),
        schema.key.as_slice(),
        key.0.as_slice(),
    )
}
