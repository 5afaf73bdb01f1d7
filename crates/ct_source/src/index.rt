ghost use Rattle.std.specs.Prelude.{◌≡◌, ◌≤◌, IfOk, IfSome, true, false, filter, length, take, drop};
ghost use Rattle.std.specs.List.Sorted.{IsPartitionPoint, IsSortedBy};
ghost use Rattle.std.specs.Ordering.{is_lt, is_le};
ghost use Rattle.ct_types.specs.Order.{value_cmp};
ghost use Rattle.ct_source.specs.Cells.{cell, has_value};
ghost use Rattle.ct_source.specs.Indexed.{AreAsWide, AreSorted, comes_before};
ghost use Rattle.ct_source.specs.Rows.{lent};
ghost use Rattle.ct_source.specs.Sources.{source_rows};

use crate::cells::{cmp_cell, cmp_cells};
use crate::lending::{lent_again, lent_with};
use crate::source::Source;
use ct_types::{List, Memory, Row, Value};
use std::alloc::Global;
use std::marker::Model;

/// Rows by the values of one of their columns: a look-up of a value takes a logarithm of the number of rows, and a step for
/// each row that has it. Contracts see the place of the column and the rows in their order.
#[derive(Drop)]
pub struct Index<'a> {
    at: u32,
    width: Option<usize>,
    rows: List<&'a Row>,
    /// The rows in rising order of their values in the column. Those with one value stand as they did.
    sorted: Vec<&'a Row>,
}

impl<'a> Model for Index<'a> {
    ghost use Rattle.ct_source.specs.Indexed.{Indexed, IsIndex};
    ghost use Rattle.ct_source.specs.Rows.{lent};

    ghost Value = { Indexed };

    ghost view = { λ it. record { at = it.at; rows = lent it.rows; width = it.width } };

    ghost invariant = { λ it. IsIndex it.at (lent it.rows) it.width it.sorted.items };
}

/// How many values each of some rows has, where all have as many.
fn width_of(rows: &[&Row]) -> Option<usize>
    ensures { IfSome result (AreAsWide (lent rows.now)) }
{
    let width = match rows.first() {
        None => 0,
        Some(row) => row.0.as_slice().len(),
    };
    for row in rows {
        if row.0.as_slice().len() != width {
            return None;
        }
    }
    Some(width)
}

/// Rows in rising order of their values in the column at a place. Those with one value stay as they stand.
fn sorted(rows: Vec<&Row>, at: u32) -> Result<Vec<&Row>, Memory>
    ensures { IfOk result (λ made. AreSorted at (lent rows.entry.items) made.items) }
{
    let mut made = rows;
    made.sort_by(|a, b| cmp_cells(a, b, at))?;
    Ok(made)
}

/// How many of the rows have a value below this one.
fn count_below(rows: &[&Row], at: u32, value: &Value) -> usize
    requires { IsSortedBy (comes_before at) rows.now }
    ensures within { result ≤ length rows.now }
    ensures parted { IsPartitionPoint (λ row. is_lt (value_cmp (cell at row.now) value.now) ≡ true) (λ row. is_lt (value_cmp (cell at row.now) value.now) ≡ false) rows.now result }
{
    rows.partition_point(|row| cmp_cell(row, at, value).is_lt())
}

/// How many of the rows have a value that is not above this one.
fn count_at_most(rows: &[&Row], at: u32, value: &Value) -> usize
    requires { IsSortedBy (comes_before at) rows.now }
    ensures within { result ≤ length rows.now }
    ensures parted { IsPartitionPoint (λ row. is_le (value_cmp (cell at row.now) value.now) ≡ true) (λ row. is_le (value_cmp (cell at row.now) value.now) ≡ false) rows.now result }
{
    rows.partition_point(|row| cmp_cell(row, at, value).is_le())
}

/// Some items, from a place on up to another.
fn part<T>(items: &[T], low: usize, high: usize) -> &[T]
    requires order { low ≤ high }
    requires within { high ≤ length items.now }
    ensures { result.now ≡ drop low (take high items.now) }
{
    let front = &items[..high];
    &front[low..]
}

/// Those of sorted rows with a value in the column.
fn run<'s, 'a>(rows: &'s [&'a Row], at: u32, value: &Value) -> &'s [&'a Row]
    requires { IsSortedBy (comes_before at) rows.now }
    ensures { lent result.now ≡ filter (has_value at value.now) (lent rows.now) }
{
    let low = count_below(rows, at, value);
    let high = count_at_most(rows, at, value);
    part(rows, low, high)
}

impl<'a> Index<'a> {
    /// The rows of a source by the column at a place, counted from 0. It takes n log n steps for n rows.
    pub fn of(alloc: Global, source: Source<'a>, at: u32) -> Result<Index<'a>, Memory>
        ensures at { IfOk result (λ made. made.at ≡ at) }
        ensures rows { IfOk result (λ made. made.rows ≡ source_rows source.entry) }
    {
        let rows = source.all(alloc)?;
        let again = source.all(alloc)?;
        Ok(Index {
            at,
            width: width_of(rows.as_slice()),
            rows,
            sorted: sorted(again.into_vec(), at)?,
        })
    }

    /// The place of the column, counted from 0.
    pub fn at(&self) -> u32
        ensures { result ≡ self.now.at }
    {
        self.at
    }

    /// How many values each row has, where all have as many.
    pub fn width(&self) -> Option<usize>
        ensures { IfSome result (AreAsWide self.now.rows) }
    {
        self.width
    }

    /// All rows, lent in their order.
    pub fn all(&self, alloc: Global) -> Result<List<&'a Row>, Memory>
        ensures { IfOk result (λ made. lent made ≡ self.now.rows) }
    {
        lent_again(alloc, self.rows.as_slice())
    }

    /// The rows with a value in the column of the index, lent in their order.
    fn found(&self, alloc: Global, value: &Value) -> Result<List<&'a Row>, Memory>
        ensures { IfOk result (λ made. lent made ≡ filter (has_value self.now.at value.now) self.now.rows) }
    {
        lent_again(alloc, run(self.sorted.as_slice(), self.at, value))
    }

    /// The rows with a value in the column at a place, counted from 0, lent in their order. In the column of the index it is a
    /// look-up, and else a walk over all rows.
    pub fn with_value(&self, alloc: Global, at: u32, value: &Value) -> Result<List<&'a Row>, Memory>
        ensures { IfOk result (λ made. lent made ≡ filter (has_value at value.now) self.now.rows) }
    {
        if at == self.at {
            self.found(alloc, value)
        } else {
            lent_with(alloc, self.rows.as_slice(), at, value)
        }
    }
}
