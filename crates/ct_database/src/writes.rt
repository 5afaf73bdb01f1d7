ghost use Rattle.std.specs.Prelude.{◌≡◌, ◌+◌, ◌<◌, ◌⊎◌, IfOk, OnOk, OnErr, MatchOption, length, map, fold};
ghost use Rattle.std.specs.List.{AllByRecursion};
ghost use Rattle.ct_model.specs.Apply.{written};
ghost use Rattle.ct_model.specs.Tables.{rows_with};
ghost use Rattle.ct_model.specs.Valid.{AreNumbered};
ghost use Rattle.ct_database.specs.Storable.{IsRowStorable, IsWriteStorable};

use ct_source::Stored;
use ct_types::{Key, List, Memory, Row, Write};
use std::alloc::Global;

/// The place of a table among this many that are numbered from 1, if it is there.
pub(crate) fn place(id: u32, count: usize) -> Option<usize>
    ensures { MatchOption result ((id ≡ 0) ⊎ (count < id)) (λ at. (at + 1 ≡ id) × (at < count)) }
{
    let id = id as usize;
    if id == 0 || count < id {
        None
    } else {
        Some(id - 1)
    }
}

fn write_row(table: &mut Stored, key: Key, row: Option<Row>) -> Result<(), Memory>
    requires { IsRowStorable table.old.schema key row }
    ensures ok { OnOk result (table.new ≡ record table.old { rows = rows_with table.old.schema table.old.rows key row }) }
    ensures err { OnErr result (table.new ≡ table.old) }
{
    match row {
        Some(row) => table.put(key, row),
        None => table.take(&key),
    }
}

/// Writes one row in place. Want of memory leaves the tables as they were.
fn write_one(tables: &mut Vec<Stored>, write: Write) -> Result<(), Memory>
    requires numbered { AreNumbered 1 tables.old.items }
    requires storable { IsWriteStorable tables.old.items write }
    ensures ok { OnOk result (tables.new.items ≡ map (written write) tables.old.items) }
    ensures err { OnErr result (tables.new.items ≡ tables.old.items) }
{
    match place(write.table, tables.len()) {
        None => Ok(()),
        Some(at) => write_row(&mut tables[at], write.key, write.row),
    }
}

/// Writes rows in their order. Want of memory leaves some of them written.
fn write_all(tables: &mut Vec<Stored>, writes: List<Write>) -> Result<(), Memory>
    requires numbered { AreNumbered 1 tables.old.items }
    requires storable { AllByRecursion (IsWriteStorable tables.old.items) writes }
    ensures { OnOk result (tables.new.items ≡ fold (λ before write. map (written write) before) tables.old.items writes) }
{
    for write in writes.into_vec() {
        write_one(tables, write)?;
    }
    Ok(())
}

/// The same tables once more.
pub(crate) fn shares(alloc: Global, tables: &[Stored]) -> Result<Vec<Stored>, Memory>
    ensures { IfOk result (λ made. made.items ≡ tables.now) }
{
    let mut made = Vec::with_capacity(alloc, tables.len())?;
    for table in tables {
        made.push(table.share()?)?;
    }
    Ok(made)
}

/// Writes rows in their order, or none where memory is wanted. One row is written in place, several into shares of the
/// tables, which take their place.
pub(crate) fn write(
    alloc: Global,
    tables: &mut Vec<Stored>,
    writes: List<Write>,
) -> Result<(), Memory>
    requires numbered { AreNumbered 1 tables.old.items }
    requires storable { AllByRecursion (IsWriteStorable tables.old.items) writes }
    ensures ok { OnOk result (tables.new.items ≡ fold (λ before write. map (written write) before) tables.old.items writes) }
    ensures err { OnErr result (tables.new.items ≡ tables.old.items) }
{
    if writes.as_slice().len() <= 1 {
        return write_few(tables, writes);
    }
    let mut made = shares(alloc, tables.as_slice())?;
    write_all(&mut made, writes)?;
    *tables = made;
    Ok(())
}

/// Writes one row or none in place.
fn write_few(tables: &mut Vec<Stored>, writes: List<Write>) -> Result<(), Memory>
    requires numbered { AreNumbered 1 tables.old.items }
    requires storable { AllByRecursion (IsWriteStorable tables.old.items) writes }
    requires few { length writes < 2 }
    ensures ok { OnOk result (tables.new.items ≡ fold (λ before write. map (written write) before) tables.old.items writes) }
    ensures err { OnErr result (tables.new.items ≡ tables.old.items) }
{
    let mut writes = writes.into_vec();
    match writes.pop() {
        None => Ok(()),
        Some(write) => write_one(tables, write),
    }
}
