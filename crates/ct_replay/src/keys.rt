ghost use Rattle.std.specs.Prelude.{◌≡◌, map, IfOk};
ghost use Rattle.ct_model.specs.Tables.{table_of};
ghost use Rattle.ct_replay.specs.Keys.{key_by, keyed_write as with_key, keyed_act as with_keys, keyed as keyed_by};

use ct_model::{Table, find_table, key_of_row};
use ct_types::{Act, Entry, Key, List, Memory, Row, Write, push};
use std::alloc::Global;

/// The key of a write: that of its row in the table of this id, or its own where it has no row or the table is not there.
fn key_in(
    alloc: Global,
    tables: &[Table],
    id: u32,
    key: Key,
    row: &Option<Row>,
) -> Result<Key, Memory>
    ensures { IfOk result (λ made. made ≡ key_by (table_of tables.now id) key row.now) }
{
    match (find_table(tables, id), row) {
        (Some(table), Some(row)) => key_of_row(alloc, &table.schema, row),
        _ => Ok(key),
    }
}

/// A write with the key that its row has in its table.
fn keyed_write(alloc: Global, tables: &[Table], write: Write) -> Result<Write, Memory>
    ensures { IfOk result (λ made. made ≡ with_key tables.now write) }
{
    let key = key_in(alloc, tables, write.table, write.key, &write.row)?;
    Ok(Write {
        table: write.table,
        op: write.op,
        key,
        row: write.row,
        tracked: write.tracked,
        mask: write.mask,
        context: write.context,
    })
}

/// Writes with the keys that their rows have.
fn keyed_writes(alloc: Global, tables: &[Table], writes: List<Write>) -> Result<List<Write>, Memory>
    ensures { IfOk result (λ made. made ≡ map (with_key tables.now) writes) }
{
    let mut made = List::new(alloc);
    for write in writes.into_vec() {
        push(&mut made, keyed_write(alloc, tables, write)?)?;
    }
    Ok(made)
}

fn keyed_act(alloc: Global, tables: &[Table], act: Act) -> Result<Act, Memory>
    ensures { IfOk result (λ made. made ≡ with_keys tables.now act) }
{
    match act {
        Act::Commit(writes) => Ok(Act::Commit(keyed_writes(alloc, tables, writes)?)),
        other => Ok(other),
    }
}

/// An entry whose writes have the keys of their rows, which its spelling leaves out.
pub fn keyed(alloc: Global, tables: &[Table], entry: Entry) -> Result<Entry, Memory>
    ensures { IfOk result (λ made. made ≡ keyed_by tables.now entry) }
{
    Ok(Entry {
        version: entry.version,
        draws: entry.draws,
        xdes: entry.xdes,
        time: entry.time,
        act: keyed_act(alloc, tables, entry.act)?,
    })
}
