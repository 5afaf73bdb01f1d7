use ct_types::{Change, Copies, Keep, Kept, List, Memory, Row, Schema, Tracked};
use std::alloc::Global;

/// A table: what it is by its definition, its rows in key order, and how it is tracked.
#[derive(Debug, Drop)]
pub struct Table {
    pub schema: Schema,
    pub rows: List<Row>,
    pub tracked: Option<Tracked>,
}

/// A database as plain lists.
#[derive(Debug, Drop)]
pub struct Db {
    /// The version of the last committed transaction that drew one; 0 at first.
    pub version: u64,
    /// The time of the last entry, in seconds.
    pub time: u64,
    /// The greatest number of a transaction.
    pub last_xdes: u64,
    /// The settings of tracking, or none where it is off.
    pub keep: Option<Keep>,
    /// By id from 1 on.
    pub tables: List<Table>,
    /// The commits whose changes are kept, by version.
    pub kept: List<Kept>,
}

/// A kept change with the version of its commit.
#[derive(Debug, Drop)]
pub struct Dated {
    pub version: u64,
    pub change: Change,
}

impl Db {
    ghost use Rattle.std.specs.Prelude.{◌≡◌, IfOk};
    ghost use Rattle.ct_model.specs.Apply.{no_db};

    /// The empty database: version, time and transactions at 0, tracking off, no table.
    pub fn empty(alloc: Global) -> Result<Db, Memory>
        ensures { IfOk result (λ db. db ≡ no_db) }
    {
        Ok(Db {
            version: 0,
            time: 0,
            last_xdes: 0,
            keep: None,
            tables: List::new(alloc),
            kept: List::new(alloc),
        })
    }
}

impl Copies for Table {
    fn copy(&self, alloc: Global) -> Result<Table, Memory> {
        Ok(Table {
            schema: self.schema.copy(alloc)?,
            rows: self.rows.copy(alloc)?,
            tracked: self.tracked,
        })
    }
}

impl Copies for Dated {
    fn copy(&self, alloc: Global) -> Result<Dated, Memory> {
        Ok(Dated {
            version: self.version,
            change: self.change.copy(alloc)?,
        })
    }
}
