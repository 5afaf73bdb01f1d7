use crate::{Keep, Kept, List, Row, Schema, Tracked};

/// A piece of a checkpoint: a database is written as its head, then each table with its rows, then the kept commits,
/// then the end.
#[derive(Debug, Drop)]
pub enum Piece {
    Head {
        version: u64,
        time: u64,
        last_xdes: u64,
        keep: Option<Keep>,
    },
    Table {
        schema: Schema,
        tracked: Option<Tracked>,
    },
    /// Some of the rows of a table, in key order.
    Rows {
        table: u32,
        rows: List<Row>,
    },
    Kept(Kept),
    End,
}
