ghost use Rattle.std.specs.Prelude.{◌≡◌, IfOk, filter};
ghost use Rattle.ct_source.specs.Cells.{has_value as has_that_value};
ghost use Rattle.ct_source.specs.Rows.{lent};
ghost use Rattle.ct_source.specs.Sources.{source_rows};

use crate::cells::has_value;
use crate::index::Index;
use crate::stored::Stored;
use ct_types::{List, Memory, Row, Value, push};
use std::alloc::Global;

/// Rows that a statement reads: a list of rows, the rows of a table, or rows by the values of a column.
#[derive(Clone, Copy)]
pub enum Source<'a> {
    /// Rows that stand in a list, in their order.
    Listed(&'a [Row]),
    /// The rows of a table, in rising order of keys.
    Stored(&'a Stored),
    /// Rows in their order, which are found by their values in one column.
    Indexed(&'a Index<'a>),
}

/// All rows of a list, lent.
fn listed(alloc: Global, rows: &[Row]) -> Result<List<&Row>, Memory>
    ensures { IfOk result (λ made. lent made ≡ rows.now) }
{
    let mut made = List::new(alloc);
    for row in rows {
        push(&mut made, row)?;
    }
    Ok(made)
}

/// The rows of a list with a value in the column at a place, lent.
fn listed_with<'a>(
    alloc: Global,
    rows: &'a [Row],
    at: u32,
    value: &Value,
) -> Result<List<&'a Row>, Memory>
    ensures { IfOk result (λ made. lent made ≡ filter (has_that_value at value.now) rows.now) }
{
    let mut made = List::new(alloc);
    for row in rows {
        if has_value(row, at, value) {
            push(&mut made, row)?;
        }
    }
    Ok(made)
}

impl<'a> Source<'a> {
    /// All rows, lent in their order.
    pub fn all(&self, alloc: Global) -> Result<List<&'a Row>, Memory>
        ensures { IfOk result (λ made. lent made ≡ source_rows self.now) }
    {
        match self {
            Source::Listed(rows) => listed(alloc, rows),
            Source::Stored(table) => table.rows(alloc),
            Source::Indexed(index) => index.all(alloc),
        }
    }

    /// The rows with a value in the column at a place, counted from 0, lent in their order. Of a table whose key is this one
    /// column, and of rows by this column, it is a look-up, and else a walk over all rows.
    pub fn with_value(&self, alloc: Global, at: u32, value: &Value) -> Result<List<&'a Row>, Memory>
        ensures { IfOk result (λ made. lent made ≡ filter (has_that_value at value.now) (source_rows self.now)) }
    {
        match self {
            Source::Listed(rows) => listed_with(alloc, rows, at, value),
            Source::Stored(table) => table.with_value(alloc, at, value),
            Source::Indexed(index) => index.with_value(alloc, at, value),
        }
    }
}
