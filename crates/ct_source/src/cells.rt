ghost use Rattle.std.specs.Prelude.{◌≡◌};
ghost use Rattle.ct_source.specs.Cells.{cell, has_value as has_that_value};
ghost use Rattle.ct_types.specs.Order.{value_cmp};

use ct_types::{Row, Value, cmp_value};
use std::cmp::Ordering;

/// How the value of a row at a place, counted from 0, stands to a value. Past the last place a row has NULL.
pub(crate) fn cmp_cell(row: &Row, at: u32, value: &Value) -> Ordering
    ensures { result ≡ value_cmp (cell at row.now) value.now }
{
    match row.0.as_slice().get(at as usize) {
        None => cmp_value(&Value::Null, value),
        Some(cell) => cmp_value(cell, value),
    }
}

/// How the values of two rows at a place stand to each other.
pub(crate) fn cmp_cells(a: &Row, b: &Row, at: u32) -> Ordering
    ensures { result ≡ value_cmp (cell at a.now) (cell at b.now) }
{
    match b.0.as_slice().get(at as usize) {
        None => cmp_cell(a, at, &Value::Null),
        Some(cell) => cmp_cell(a, at, cell),
    }
}

/// Whether a row has this value at a place.
pub(crate) fn has_value(row: &Row, at: u32, value: &Value) -> bool
    ensures { result ≡ has_that_value at value.now row.now }
{
    cmp_cell(row, at, value) == Ordering::Equal
}
