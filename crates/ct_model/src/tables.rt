ghost use Rattle.std.specs.Prelude.{◌≡◌, ◌++◌, ◌∷◌, [], None, IfOk, map, fold};
ghost use Rattle.std.specs.Option.{option_copied};
ghost use Rattle.ct_model.specs.Apply.{tables_after, written, tracked_as, truncated, raised, with_min};
ghost use Rattle.ct_model.specs.Tables.{table_of};

use crate::Table;
use crate::rows::put_row;
use ct_types::{Act, Copies, List, Memory, Min, Schema, Tracked, Write};
use std::alloc::Global;

/// The table of an id, if there is one.
pub fn find_table(tables: &[Table], id: u32) -> Option<&Table>
    ensures { option_copied result ≡ table_of tables.now id }
{
    tables.iter().find(|table| table.schema.id == id)
}

fn write_table(alloc: Global, write: &Write, table: &Table) -> Result<Table, Memory>
    ensures { IfOk result (λ made. made ≡ written write.now table.now) }
{
    if table.schema.id != write.table {
        return table.copy(alloc);
    }
    let rows = table.rows.as_slice();
    Ok(Table {
        schema: table.schema.copy(alloc)?,
        rows: put_row(alloc, &table.schema, rows, &write.key, &write.row)?,
        tracked: table.tracked,
    })
}

/// The tables after one write.
pub fn write_one(alloc: Global, write: &Write, tables: &[Table]) -> Result<List<Table>, Memory>
    ensures { IfOk result (λ made. made ≡ map (written write.now) tables.now) }
{
    let mut made = List::new(alloc);
    for table in tables {
        made.push(write_table(alloc, write, table)?)?;
    }
    Ok(made)
}

fn copy_all(alloc: Global, tables: &[Table]) -> Result<List<Table>, Memory>
    ensures { IfOk result (λ made. made ≡ tables.now) }
{
    let mut made = List::new(alloc);
    for table in tables {
        made.push(table.copy(alloc)?)?;
    }
    Ok(made)
}

fn write_all(alloc: Global, writes: &[Write], tables: &[Table]) -> Result<List<Table>, Memory>
    ensures { IfOk result (λ made. made ≡ fold (λ tables write. map (written write) tables) tables.now writes.now) }
{
    let mut made = copy_all(alloc, tables)?;
    for write in writes {
        made = write_one(alloc, write, made.as_slice())?;
    }
    Ok(made)
}

fn track_table(
    alloc: Global,
    id: u32,
    tracked: Option<Tracked>,
    table: &Table,
) -> Result<Table, Memory>
    ensures { IfOk result (λ made. made ≡ tracked_as id tracked table.now) }
{
    let mut made = table.copy(alloc)?;
    if table.schema.id == id {
        made.tracked = tracked;
    }
    Ok(made)
}

fn track(
    alloc: Global,
    id: u32,
    tracked: Option<Tracked>,
    tables: &[Table],
) -> Result<List<Table>, Memory>
    ensures { IfOk result (λ made. made ≡ map (tracked_as id tracked) tables.now) }
{
    let mut made = List::new(alloc);
    for table in tables {
        made.push(track_table(alloc, id, tracked, table)?)?;
    }
    Ok(made)
}

fn at_min(min: u64, tracked: Option<Tracked>) -> Option<Tracked>
    ensures { result ≡ with_min min tracked }
{
    tracked.map(|tracked| Tracked { min, ..tracked })
}

fn truncate_table(
    alloc: Global,
    id: u32,
    version: u64,
    draws: bool,
    table: &Table,
) -> Result<Table, Memory>
    ensures { IfOk result (λ made. made ≡ truncated id version draws table.now) }
{
    if table.schema.id != id {
        return table.copy(alloc);
    }
    Ok(Table {
        schema: table.schema.copy(alloc)?,
        rows: List::new(alloc),
        tracked: if draws {
            at_min(version, table.tracked)
        } else {
            table.tracked
        },
    })
}

fn truncate(
    alloc: Global,
    id: u32,
    version: u64,
    draws: bool,
    tables: &[Table],
) -> Result<List<Table>, Memory>
    ensures { IfOk result (λ made. made ≡ map (truncated id version draws) tables.now) }
{
    let mut made = List::new(alloc);
    for table in tables {
        made.push(truncate_table(alloc, id, version, draws, table)?)?;
    }
    Ok(made)
}

fn raise_table(alloc: Global, listed: Min, table: &Table) -> Result<Table, Memory>
    ensures { IfOk result (λ made. made ≡ raised listed table.now) }
{
    let mut made = table.copy(alloc)?;
    if table.schema.id == listed.table {
        made.tracked = at_min(listed.min, table.tracked);
    }
    Ok(made)
}

fn raise_one(alloc: Global, listed: Min, tables: &[Table]) -> Result<List<Table>, Memory>
    ensures { IfOk result (λ made. made ≡ map (raised listed) tables.now) }
{
    let mut made = List::new(alloc);
    for table in tables {
        made.push(raise_table(alloc, listed, table)?)?;
    }
    Ok(made)
}

fn raise_all(alloc: Global, minima: &[Min], tables: &[Table]) -> Result<List<Table>, Memory>
    ensures { IfOk result (λ made. made ≡ fold (λ tables listed. map (raised listed) tables) tables.now minima.now) }
{
    let mut made = copy_all(alloc, tables)?;
    for listed in minima {
        made = raise_one(alloc, *listed, made.as_slice())?;
    }
    Ok(made)
}

fn define(alloc: Global, schema: &Schema, tables: &[Table]) -> Result<List<Table>, Memory>
    ensures { IfOk result (λ made. made ≡ tables.now ++ record { schema = schema.now; rows = []; tracked = None } ∷ []) }
{
    let mut made = copy_all(alloc, tables)?;
    made.push(Table {
        schema: schema.copy(alloc)?,
        rows: List::new(alloc),
        tracked: None,
    })?;
    Ok(made)
}

/// The tables after an act of an entry with this version, which the entry draws or not.
pub(crate) fn change_tables(
    alloc: Global,
    act: &Act,
    version: u64,
    draws: bool,
    tables: &[Table],
) -> Result<List<Table>, Memory>
    ensures { IfOk result (λ made. made ≡ tables_after act.now version draws tables.now) }
{
    match act {
        Act::Commit(writes) => write_all(alloc, writes.as_slice(), tables),
        Act::Define(schema) => define(alloc, schema, tables),
        Act::Truncate(id) => truncate(alloc, *id, version, draws, tables),
        Act::Enable { table, masks } => {
            let tracked = Tracked {
                min: version,
                masks: *masks,
            };
            track(alloc, *table, Some(tracked), tables)
        }
        Act::Disable(id) => track(alloc, *id, None, tables),
        Act::Database(_) => copy_all(alloc, tables),
        Act::Raise(minima) => raise_all(alloc, minima.as_slice(), tables),
    }
}
