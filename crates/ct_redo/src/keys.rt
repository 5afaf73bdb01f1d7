ghost use Rattle.std.specs.Prelude.{◌≡◌, map, IfOk};
ghost use Rattle.ct_model.specs.Tables.{table_of};
ghost use Rattle.ct_replay.specs.Keys.{key_by, keyed_write as with_key, keyed_act as with_keys, keyed as keyed_by};

use ct_database::Database;
use ct_model::key_of_row;
use ct_types::{Act, Entry, Key, List, Memory, Row, Write, push};
use std::alloc::Global;

/// The key of a write: that of its row in the table of this id, or its own where it has no row or the table is not there.
fn key_in(
    alloc: Global,
    database: &Database,
    id: u32,
    key: Key,
    row: &Option<Row>,
) -> Result<Key, Memory>
    ensures { IfOk result (λ made. made ≡ key_by (table_of database.now.tables id) key row.now) }
{
    match (database.table(id), row) {
        (Some(table), Some(row)) => key_of_row(alloc, table.schema(), row),
        _ => Ok(key),
    }
}

/// A write with the key that its row has in its table.
fn keyed_write(alloc: Global, database: &Database, write: Write) -> Result<Write, Memory>
    ensures { IfOk result (λ made. made ≡ with_key database.now.tables write) }
{
    let key = key_in(alloc, database, write.table, write.key, &write.row)?;
    Ok(Write {
        table: write.table,
        op: write.op,
        key,
        row: write.row,
        tracked: write.tracked,
        mask: write.mask,
        context: write.context,
    })
}

/// Writes with the keys that their rows have.
fn keyed_writes(
    alloc: Global,
    database: &Database,
    writes: List<Write>,
) -> Result<List<Write>, Memory>
    ensures { IfOk result (λ made. made ≡ map (with_key database.now.tables) writes) }
{
    let mut made = List::new(alloc);
    for write in writes.into_vec() {
        push(&mut made, keyed_write(alloc, database, write)?)?;
    }
    Ok(made)
}

fn keyed_act(alloc: Global, database: &Database, act: Act) -> Result<Act, Memory>
    ensures { IfOk result (λ made. made ≡ with_keys database.now.tables act) }
{
    match act {
        Act::Commit(writes) => Ok(Act::Commit(keyed_writes(alloc, database, writes)?)),
        other => Ok(other),
    }
}

/// An entry whose writes have the keys of their rows, which its spelling leaves out.
pub(crate) fn keyed(alloc: Global, database: &Database, entry: Entry) -> Result<Entry, Memory>
    ensures { IfOk result (λ made. made ≡ keyed_by database.now.tables entry) }
{
    Ok(Entry {
        version: entry.version,
        draws: entry.draws,
        xdes: entry.xdes,
        time: entry.time,
        act: keyed_act(alloc, database, entry.act)?,
    })
}
