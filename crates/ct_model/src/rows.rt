ghost use Rattle.std.specs.Prelude.{◌≡◌, ◌-◌, ◌++◌, IfOk, OnOk, filter, slice_get};
ghost use Rattle.std.specs.List.{filter_map};
ghost use Rattle.std.specs.Option.{option_copied, option_to_list};
ghost use Rattle.std.specs.Ordering.{is_lt, is_gt};
ghost use Rattle.std.specs.Cmp.Lexicographic.{slice_cmp};
ghost use Rattle.ct_types.specs.Order.{value_cmp, key_cmp};
ghost use Rattle.ct_model.specs.Tables.{key_of, rows_with, has_that_key, has_row as has_that_row};

use ct_types::{Copies, Key, List, Memory, Row, Schema, Value, cmp_value};
use std::alloc::Global;
use std::cmp::Ordering;

/// The value of a column, by its id.
fn value_at(row: &[Value], id: u16) -> Option<&Value>
    ensures { option_copied result ≡ slice_get row.now (id - 1) }
{
    row.get(usize::from(id.saturating_sub(1)))
}

fn cmp_columns(ids: &[u16], row: &[Value], key: &[Value]) -> Ordering
    ensures { result ≡ slice_cmp value_cmp (filter_map (λ id. slice_get row.now (id - 1)) ids.now) key.now }
{
    match ids {
        [] => match key {
            [] => Ordering::Equal,
            [_, ..] => Ordering::Less,
        },
        [id, ids @ ..] => match row.get(usize::from(id.saturating_sub(1))) {
            None => cmp_columns(ids, row, key),
            Some(value) => match key {
                [] => Ordering::Greater,
                [first, key @ ..] => match cmp_value(value, first) {
                    Ordering::Equal => cmp_columns(ids, row, key),
                    order => order,
                },
            },
        },
    }
}

/// Compares the key of a row with a key, in the order of `cmp_key`. A key column that the row does not have is left
/// out.
pub fn cmp_row(schema: &Schema, row: &Row, key: &Key) -> Ordering
    ensures { result ≡ key_cmp (key_of schema.now row.now) key.now }
{
    cmp_columns(schema.key.as_slice(), row.0.as_slice(), key.0.as_slice())
}

/// Whether a row has the key.
pub fn has_key(schema: &Schema, row: &Row, key: &Key) -> bool
    ensures { result ≡ has_that_key schema.now key.now row.now }
{
    cmp_row(schema, row, key) == Ordering::Equal
}

/// Whether one of the rows has the key.
pub fn has_row(schema: &Schema, rows: &[Row], key: &Key) -> bool
    ensures { result ≡ has_that_row schema.now rows.now key.now }
{
    rows.iter().any(|row| has_key(schema, row, key))
}

/// Adds the value of a column, if the row has one.
fn push_value(alloc: Global, row: &[Value], id: u16, values: &mut List<Value>) -> Result<(), Memory>
    ensures { OnOk result (values.new ≡ values.old ++ option_to_list (slice_get row.now (id - 1))) }
{
    if let Some(value) = value_at(row, id) {
        values.push(value.copy(alloc)?)?;
    }
    Ok(())
}

fn key_values(alloc: Global, ids: &[u16], row: &[Value]) -> Result<List<Value>, Memory>
    ensures { IfOk result (λ made. made ≡ filter_map (λ id. slice_get row.now (id - 1)) ids.now) }
{
    let mut values = List::new(alloc);
    for id in ids {
        push_value(alloc, row, *id, &mut values)?;
    }
    Ok(values)
}

/// The key of a row: its values in the columns of the key.
pub fn key_of_row(alloc: Global, schema: &Schema, row: &Row) -> Result<Key, Memory>
    ensures { IfOk result (λ made. made ≡ key_of schema.now row.now) }
{
    Ok(Key(key_values(alloc, schema.key.as_slice(), row.0.as_slice())?))
}

fn rows_before(alloc: Global, schema: &Schema, rows: &[Row], key: &Key) -> Result<List<Row>, Memory>
    ensures { IfOk result (λ made. made ≡ filter (λ old. is_lt (key_cmp (key_of schema.now old) key.now)) rows.now) }
{
    let mut made = List::new(alloc);
    for old in rows {
        if cmp_row(schema, old, key) == Ordering::Less {
            made.push(old.copy(alloc)?)?;
        }
    }
    Ok(made)
}

fn push_after(
    alloc: Global,
    schema: &Schema,
    rows: &[Row],
    key: &Key,
    made: &mut List<Row>,
) -> Result<(), Memory>
    ensures { OnOk result (made.new ≡ made.old ++ filter (λ old. is_gt (key_cmp (key_of schema.now old) key.now)) rows.now) }
{
    for old in rows {
        if cmp_row(schema, old, key) == Ordering::Greater {
            made.push(old.copy(alloc)?)?;
        }
    }
    Ok(())
}

/// The rows with this row, or none, in place of the one of the key.
pub(crate) fn put_row(
    alloc: Global,
    schema: &Schema,
    rows: &[Row],
    key: &Key,
    row: &Option<Row>,
) -> Result<List<Row>, Memory>
    ensures { IfOk result (λ made. made ≡ rows_with schema.now rows.now key.now row.now) }
{
    let mut made = rows_before(alloc, schema, rows, key)?;
    if let Some(row) = row {
        made.push(row.copy(alloc)?)?;
    }
    push_after(alloc, schema, rows, key, &mut made)?;
    Ok(made)
}
