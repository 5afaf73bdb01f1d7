ghost use Rattle.std.specs.Prelude.{◌≡◌, ℕ, ◌<◌, List, length, IfOk, OnOk, OnErr};
ghost use Rattle.std.specs.List.{find, position, position_or_len};
ghost use Rattle.std.specs.Option.{option_copied};
ghost use Rattle.ct_types.specs.declared.entry.Entry.{Entry};
ghost use Rattle.ct_types.specs.declared.value.Key.{Key};
ghost use Rattle.ct_conflicts.specs.Conflicts.{conflicting_keys};
ghost use Rattle.ct_conflicts.specs.Later.{is_of, last_alter, last_write, number_after, Tells};

use ct_ptree::Tree;
use ct_types::{Key, Memory, Write};
use std::alloc::Global;

/// Which entry changed something.
#[derive(Clone, Copy, Debug, PartialEq, Eq)]
pub(crate) struct Stamp {
    /// Its place among the entries, counted from 1.
    pub(crate) at: u64,
    /// The number of its transaction.
    pub(crate) xdes: u64,
}

/// The last changes of a table.
#[derive(Drop)]
pub(crate) struct TableStamps {
    pub(crate) table: u32,
    /// The last definition, TRUNCATE, ENABLE or DISABLE.
    pub(crate) altered: Option<Stamp>,
    /// The last write of each key.
    pub(crate) written: Tree<Stamp>,
}

/// A list of shares of all stamps, with no copy of a stamp of a key.
pub(crate) fn shares(alloc: Global, later: &[TableStamps]) -> Result<Vec<TableStamps>, Memory>
    ensures { IfOk result (λ made. made.items ≡ later.now) }
{
    let mut made = Vec::with_capacity(alloc, later.len())?;
    for stamps in later {
        made.push(TableStamps {
            table: stamps.table,
            altered: stamps.altered,
            written: stamps.written.share()?,
        })?;
    }
    Ok(made)
}

/// The place of the stamps of a table, None where it has none.
fn place_in(later: &[TableStamps], table: u32) -> Option<usize>
    ensures { result ≡ position (is_of table) later.now }
{
    later.iter().position(|stamps| stamps.table == table)
}

/// The place of the stamps of a table. Where it has none, they begin without a stamp.
pub(crate) fn place_of(
    alloc: Global,
    later: &mut Vec<TableStamps>,
    table: u32,
) -> Result<usize, Memory>
    ensures within { IfOk result (λ place. place < length later.new.items) }
    ensures first { IfOk result (λ place. place ≡ position_or_len (is_of table) later.new.items) }
    ensures written { (other : ℕ) (key : Key) → last_write later.new.items other key ≡ last_write later.old.items other key }
    ensures altered { (other : ℕ) → last_alter later.new.items other ≡ last_alter later.old.items other }
    ensures err { OnErr result (later.new.items ≡ later.old.items) }
{
    if let Some(place) = place_in(later.as_slice(), table) {
        return Ok(place);
    }
    later.push(TableStamps {
        table,
        altered: None,
        written: Tree::new(alloc),
    })?;
    Ok(later.len() - 1)
}

/// The stamps of a table, None where it has none.
fn of_table(later: &[TableStamps], table: u32) -> Option<&TableStamps>
    ensures { option_copied result ≡ find (is_of table) later.now }
{
    later.iter().find(|stamps| stamps.table == table)
}

/// The transaction of a stamp, where its place is above a view.
fn number_after(view: u64, stamp: Option<Stamp>) -> Option<u64>
    ensures { result ≡ number_after view stamp }
{
    match stamp {
        None => None,
        Some(stamp) => {
            if view < stamp.at {
                Some(stamp.xdes)
            } else {
                None
            }
        }
    }
}

/// The last transaction that altered a table after a view.
pub(crate) fn altered_after(later: &[TableStamps], view: u64, table: u32) -> Option<u64>
    ensures { result ≡ number_after view (last_alter later.now table) }
{
    match of_table(later, table) {
        None => None,
        Some(stamps) => number_after(view, stamps.altered),
    }
}

/// The last transaction that wrote a key of a table after a view.
fn written_after(later: &[TableStamps], view: u64, table: u32, key: &Key) -> Option<u64>
    ensures { result ≡ number_after view (last_write later.now table key.now) }
{
    match of_table(later, table) {
        None => None,
        Some(stamps) => number_after(view, stamps.written.get(key).copied()),
    }
}

/// The last transaction that wrote the first of the keys of some writes that was written after a view.
pub(crate) fn first_written(later: &[TableStamps], view: u64, writes: &[Write]) -> Option<u64>
    ensures { (entries : List Entry) → Tells later.now view entries → result ≡ conflicting_keys entries writes.now }
{
    for write in writes {
        if let Some(number) = written_after(later, view, write.table, &write.key) {
            return Some(number);
        }
    }
    None
}
