use crate::{Copies, CopyOut, List, Memory, Refusal, Row, Text, Verdict};
use std::alloc::Global;

/// The answer of a SELECT: the names of its columns, and its rows.
#[derive(Debug, Drop)]
pub struct Grid {
    pub names: List<Text>,
    pub rows: List<Row>,
}

/// What a statement is answered.
#[derive(Debug, Drop)]
pub enum Reply {
    Done,
    /// How many rows were written.
    Count(u64),
    Rows(Grid),
    /// Of how many tables cleanup raised the minimum.
    Raised(u32),
    Verdict(Verdict),
    Copied(Option<CopyOut>),
    Refused(Refusal),
}

impl Copies for Grid {
    fn copy(&self, alloc: Global) -> Result<Grid, Memory> {
        Ok(Grid {
            names: self.names.copy(alloc)?,
            rows: self.rows.copy(alloc)?,
        })
    }
}

impl Copies for Reply {
    fn copy(&self, alloc: Global) -> Result<Reply, Memory> {
        match self {
            Reply::Done => Ok(Reply::Done),
            Reply::Count(count) => Ok(Reply::Count(*count)),
            Reply::Rows(grid) => Ok(Reply::Rows(grid.copy(alloc)?)),
            Reply::Raised(count) => Ok(Reply::Raised(*count)),
            Reply::Verdict(verdict) => Ok(Reply::Verdict(verdict.copy(alloc)?)),
            Reply::Copied(copied) => Ok(Reply::Copied(copied.copy(alloc)?)),
            Reply::Refused(refusal) => Ok(Reply::Refused(refusal.copy(alloc)?)),
        }
    }
}
