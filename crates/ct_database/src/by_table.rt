ghost use Rattle.std.specs.Prelude.{◌≡◌, ◌==◌, ◌||◌, ℕ, IfOk, OnOk, filter, if◌then◌else◌};
ghost use Rattle.std.specs.List.{list_any};
ghost use Rattle.std.specs.Option.{option_copied};
ghost use Rattle.ct_source.specs.Rows.{lent};
ghost use Rattle.ct_database.specs.Commits.{has_change_of};
ghost use Rattle.ct_database.specs.Steps.{Rise, StandAtLasts, chunks_of, chunks_on, commits_in, found_chunks, is_later, pointed, table_key as key_of_table, with_chunk as with_chunk_at};

use crate::chunk::Chunk;
use crate::sealed::later;
use ct_ptree::Tree;
use ct_types::{Change, Copies, Kept, Key, List, Memory, Value, push};
use std::alloc::Global;
use std::sync::Arc;

/// The key at which the chunks of a table stand: its id.
#[tactic(auto, unfolding(crate::specs::Steps::table_key))]
fn table_key(alloc: Global, table: u32) -> Result<Key, Memory>
    ensures { IfOk result (λ made. made ≡ key_of_table table) }
{
    let mut values = List::new(alloc);
    push(&mut values, Value::Int(i64::from(table)))?;
    Ok(Key(values))
}

/// Whether a table is among these.
fn has_table(tables: &[u32], table: u32) -> bool
    ensures { result ≡ list_any (λ id. id == table) tables.now }
{
    tables.iter().any(|id| *id == table)
}

/// Adds the tables of changes, but for those that are there.
fn add_tables(made: &mut List<u32>, changes: &[Change]) -> Result<(), Memory>
    ensures { OnOk result ((table : ℕ) → list_any (λ id. id == table) made.new ≡ (list_any (λ id. id == table) made.old || list_any (λ change. change.table == table) changes.now)) }
{
    for change in changes {
        if !has_table(made.as_slice(), change.table) {
            push(made, change.table)?;
        }
    }
    Ok(())
}

/// The tables that commits change, each once.
fn tables_of(alloc: Global, commits: &[Arc<Kept>]) -> Result<List<u32>, Memory>
    ensures { IfOk result (λ made. (table : ℕ) → list_any (λ id. id == table) made ≡ list_any (has_change_of table) (pointed commits.now)) }
{
    let mut made = List::new(alloc);
    for one in commits {
        add_tables(&mut made, one.changes.as_slice())?;
    }
    Ok(made)
}

/// The same chunks once more, none where there is no tree.
fn shared(alloc: Global, chunks: Option<&Tree<Arc<Chunk>>>) -> Result<Tree<Arc<Chunk>>, Memory>
    ensures { IfOk result (λ made. chunks_of made ≡ found_chunks (option_copied chunks.entry)) }
{
    match chunks {
        None => Ok(Tree::new(alloc)),
        Some(chunks) => chunks.share(),
    }
}

/// The same chunks with this one at a key, or with none at it.
fn with_chunk(
    alloc: Global,
    chunks: Option<&Tree<Arc<Chunk>>>,
    key: &Key,
    chunk: Option<&Arc<Chunk>>,
) -> Result<Tree<Arc<Chunk>>, Memory>
    ensures { IfOk result (λ made. chunks_of made ≡ with_chunk_at (option_copied chunk.entry) key.now (found_chunks (option_copied chunks.entry))) }
{
    let made = shared(alloc, chunks)?;
    match chunk {
        None => made.remove(key),
        Some(chunk) => made.insert(key.copy(alloc)?, Arc::try_clone(chunk)?),
    }
}

/// Puts the chunks of a table, with this one at a key, or with none at it, to those of the other tables.
fn put_table(
    alloc: Global,
    made: &mut Tree<Tree<Arc<Chunk>>>,
    by_table: &Tree<Tree<Arc<Chunk>>>,
    table: u32,
    key: &Key,
    chunk: Option<&Arc<Chunk>>,
) -> Result<(), Memory>
    ensures { OnOk result ((other : ℕ) → chunks_on other made.new ≡ (if table == other then with_chunk_at (option_copied chunk.entry) key.now (chunks_on other by_table.now) else chunks_on other made.old)) }
{
    let own = table_key(alloc, table)?;
    let chunks = with_chunk(alloc, by_table.get(&own), key, chunk)?;
    made.put(own, chunks)
}

/// The chunks of each table, where those of these tables have this one at a key, or none at it.
fn with_tables(
    alloc: Global,
    by_table: &Tree<Tree<Arc<Chunk>>>,
    tables: &[u32],
    key: &Key,
    chunk: Option<&Arc<Chunk>>,
) -> Result<Tree<Tree<Arc<Chunk>>>, Memory>
    ensures { IfOk result (λ made. (other : ℕ) → chunks_on other made ≡ (if list_any (λ id. id == other) tables.now then with_chunk_at (option_copied chunk.entry) key.now (chunks_on other by_table.now) else chunks_on other by_table.now)) }
{
    let mut made = by_table.share()?;
    for table in tables {
        put_table(alloc, &mut made, by_table, *table, key, chunk)?;
    }
    Ok(made)
}

/// The chunks of each table, where those of the tables that some commits change have this one at a key, or none at it.
pub(crate) fn with_commits(
    alloc: Global,
    by_table: &Tree<Tree<Arc<Chunk>>>,
    commits: &Chunk,
    key: &Key,
    chunk: Option<&Arc<Chunk>>,
) -> Result<Tree<Tree<Arc<Chunk>>>, Memory>
    ensures { IfOk result (λ made. (table : ℕ) → chunks_on table made ≡ (if list_any (has_change_of table) commits.now then with_chunk_at (option_copied chunk.entry) key.now (chunks_on table by_table.now) else chunks_on table by_table.now)) }
{
    let tables = tables_of(alloc, commits.pointers())?;
    with_tables(alloc, by_table, tables.as_slice(), key, chunk)
}

/// The commits above a version of the chunks of a table, lent. It costs those of the chunks that end at or above it.
pub(crate) fn later_on(
    alloc: Global,
    by_table: &Tree<Tree<Arc<Chunk>>>,
    table: u32,
    version: u64,
) -> Result<List<&Kept>, Memory>
    requires keyed { StandAtLasts (chunks_on table by_table.now) }
    requires rising { Rise (commits_in (chunks_on table by_table.now)) }
    ensures { IfOk result (λ made. lent made ≡ filter (is_later version) (commits_in (chunks_on table by_table.now))) }
{
    let own = table_key(alloc, table)?;
    match by_table.get(&own) {
        None => Ok(List::new(alloc)),
        Some(chunks) => later(alloc, chunks, version),
    }
}
