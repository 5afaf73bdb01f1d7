ghost use Rattle.std.specs.Prelude.{◌≡◌, ◌++◌, ◌∷◌, [], IfOk, OnOk};
ghost use Rattle.std.specs.List.{AllByRecursion};
ghost use Rattle.ct_model.specs.Valid.{AreRising};
ghost use Rattle.ct_source.specs.Plain.{AreBelow, IsKeyed};
ghost use Rattle.ct_source.specs.Rows.{IsWhole, lent};

use crate::stored::Stored;
use ct_model::{Table, key_of_row};
use ct_types::{Copies, List, Memory, Row, push};
use std::alloc::Global;

/// Adds a row whose key is above those of all others.
fn add_row(alloc: Global, table: &mut Stored, row: Row) -> Result<(), Memory>
    requires whole { IsWhole table.old.schema row }
    requires above { AreBelow table.old.schema row table.old.rows }
    ensures { OnOk result (table.new ≡ record table.old { rows = table.old.rows ++ row ∷ [] }) }
{
    let key = key_of_row(alloc, table.schema(), &row)?;
    table.put(key, row)
}

/// Adds rows in their order, whose keys rise above those of all others.
fn add_rows(alloc: Global, table: &mut Stored, rows: List<Row>) -> Result<(), Memory>
    requires whole { AllByRecursion (IsWhole table.old.schema) rows }
    requires rising { AreRising table.old.schema (table.old.rows ++ rows) }
    ensures { OnOk result (table.new ≡ record table.old { rows = table.old.rows ++ rows }) }
{
    for row in rows.into_vec() {
        add_row(alloc, table, row)?;
    }
    Ok(())
}

/// Copies of rows, in their order.
fn copied(alloc: Global, rows: &[&Row]) -> Result<List<Row>, Memory>
    ensures { IfOk result (λ made. made ≡ lent rows.now) }
{
    let mut made = List::new(alloc);
    for row in rows {
        push(&mut made, row.copy(alloc)?)?;
    }
    Ok(made)
}

impl Stored {
    /// The table of a plain one. It takes the time of a [`Stored::put`] for each row. `Memory` is the only error.
    pub fn of(alloc: Global, table: Table) -> Result<Stored, Memory>
        requires { IsKeyed table }
        ensures { IfOk result (λ made. made ≡ table) }
    {
        let Table {
            schema,
            rows,
            tracked,
        } = table;
        let mut made = Stored::new(alloc, schema)?;
        add_rows(alloc, &mut made, rows)?;
        made.set_tracked(tracked);
        Ok(made)
    }

    /// The plain table, with a copy of each row. `Memory` is the only error.
    pub fn to_table(&self, alloc: Global) -> Result<Table, Memory>
        ensures { IfOk result (λ made. made ≡ self.now) }
    {
        let rows = self.rows(alloc)?;
        Ok(Table {
            schema: self.schema().copy(alloc)?,
            rows: copied(alloc, rows.as_slice())?,
            tracked: self.tracked(),
        })
    }
}
