use crate::{Bin, Copies, Key, List, Memory, Row, Schema};
use std::alloc::Global;

/// What a change does to the row of its key.
#[derive(Clone, Copy, Debug, PartialEq, Eq)]
pub enum Op {
    Insert,
    Update,
    Delete,
}

/// A tracked change: that the row of a key changed, and how. The changed values are not recorded.
#[derive(Debug, Drop)]
pub struct Change {
    pub table: u32,
    pub key: Key,
    pub op: Op,
    /// The columns that an update of a table with masks sets: bit c - 1 stands for column id c. Else 0.
    pub mask: u64,
    /// The bytes that WITH CHANGE_TRACKING_CONTEXT gives, at most 128.
    pub context: Option<Bin>,
}

/// One row that a transaction writes.
#[derive(Debug, Drop)]
pub struct Write {
    pub table: u32,
    pub op: Op,
    pub key: Key,
    /// The row after the write; none for a delete.
    pub row: Option<Row>,
    pub tracked: bool,
    /// The columns that an update of a table with masks sets: bit c - 1 stands for column id c. Else 0.
    pub mask: u64,
    pub context: Option<Bin>,
}

/// The settings of a database that is on: the retention in seconds, and whether cleanup is automatic.
#[derive(Clone, Copy, Debug, PartialEq, Eq)]
pub struct Keep {
    pub retention: u64,
    pub auto: bool,
}

/// A new minimum of a table.
#[derive(Clone, Copy, Debug, PartialEq, Eq)]
pub struct Min {
    pub table: u32,
    pub min: u64,
}

/// What a committed transaction does.
#[derive(Debug, Drop)]
pub enum Act {
    /// Writes rows, in this order.
    Commit(List<Write>),
    /// Creates a table.
    Define(Schema),
    /// Removes all rows of a table. Clients of a tracked one have to begin anew.
    Truncate(u32),
    /// Begins to track a table, with the columns of its updates or without.
    Enable { table: u32, masks: bool },
    /// Tracks a table no more.
    Disable(u32),
    /// The settings, or none where tracking goes off.
    Database(Option<Keep>),
    /// Raises the minima of tables, by rising table: what cleanup does.
    Raise(List<Min>),
}

/// One committed transaction, or one definition, TRUNCATE, ENABLE, DISABLE, option or raise, each a commit of its own.
#[derive(Debug, Drop)]
pub struct Entry {
    /// The database's version after it.
    pub version: u64,
    /// Whether it draws that version.
    pub draws: bool,
    /// The number of the transaction; 0 for a Raise.
    pub xdes: u64,
    /// The time of the commit, in seconds.
    pub time: u64,
    pub act: Act,
}

/// A commit whose changes are kept, as `sys.dm_tran_commit_table` shows it.
#[derive(Debug, Drop)]
pub struct Kept {
    pub version: u64,
    pub xdes: u64,
    pub time: u64,
    pub changes: List<Change>,
}

impl Copies for Min {
    fn copy(&self, _alloc: Global) -> Result<Min, Memory> {
        Ok(*self)
    }
}

impl Copies for Change {
    fn copy(&self, alloc: Global) -> Result<Change, Memory> {
        Ok(Change {
            table: self.table,
            key: self.key.copy(alloc)?,
            op: self.op,
            mask: self.mask,
            context: self.context.copy(alloc)?,
        })
    }
}

impl Copies for Write {
    fn copy(&self, alloc: Global) -> Result<Write, Memory> {
        Ok(Write {
            table: self.table,
            op: self.op,
            key: self.key.copy(alloc)?,
            row: self.row.copy(alloc)?,
            tracked: self.tracked,
            mask: self.mask,
            context: self.context.copy(alloc)?,
        })
    }
}

impl Copies for Act {
    fn copy(&self, alloc: Global) -> Result<Act, Memory> {
        match self {
            Act::Commit(writes) => Ok(Act::Commit(writes.copy(alloc)?)),
            Act::Define(schema) => Ok(Act::Define(schema.copy(alloc)?)),
            Act::Truncate(table) => Ok(Act::Truncate(*table)),
            Act::Enable { table, masks } => Ok(Act::Enable {
                table: *table,
                masks: *masks,
            }),
            Act::Disable(table) => Ok(Act::Disable(*table)),
            Act::Database(keep) => Ok(Act::Database(*keep)),
            Act::Raise(minima) => Ok(Act::Raise(minima.copy(alloc)?)),
        }
    }
}

impl Copies for Entry {
    fn copy(&self, alloc: Global) -> Result<Entry, Memory> {
        Ok(Entry {
            version: self.version,
            draws: self.draws,
            xdes: self.xdes,
            time: self.time,
            act: self.act.copy(alloc)?,
        })
    }
}

impl Copies for Kept {
    fn copy(&self, alloc: Global) -> Result<Kept, Memory> {
        Ok(Kept {
            version: self.version,
            xdes: self.xdes,
            time: self.time,
            changes: self.changes.copy(alloc)?,
        })
    }
}
