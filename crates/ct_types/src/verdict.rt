use crate::{Copies, Key, List, Memory, Op, Row};
use std::alloc::Global;

/// A net change as a client is told it.
#[derive(Debug, Drop)]
pub struct Touched {
    pub op: Op,
    pub key: Key,
}

/// What a client's step of synchronisation came to.
#[derive(Debug, Drop)]
pub enum Verdict {
    /// The client had no copy, and has one now.
    Initialised {
        version: u64,
        rows: u64,
    },
    /// The client's copy went from one version to another.
    Synced {
        from: u64,
        to: u64,
        changes: List<Touched>,
    },
    /// A view is held, from which the client may pull.
    Looked {
        version: u64,
        min: u64,
    },
    /// The noted version is too old: the client has to begin anew.
    Reinitialise {
        noted: u64,
        min: u64,
    },
    /// The table is not tracked.
    NotTracked,
}

/// A client's copy of a table, with the version that it noted.
#[derive(Debug, Drop)]
pub struct CopyOut {
    pub noted: u64,
    pub rows: List<Row>,
}

impl Copies for Touched {
    fn copy(&self, alloc: Global) -> Result<Touched, Memory> {
        Ok(Touched {
            op: self.op,
            key: self.key.copy(alloc)?,
        })
    }
}

impl Copies for Verdict {
    fn copy(&self, alloc: Global) -> Result<Verdict, Memory> {
        match self {
            Verdict::Initialised { version, rows } => Ok(Verdict::Initialised {
                version: *version,
                rows: *rows,
            }),
            Verdict::Synced { from, to, changes } => Ok(Verdict::Synced {
                from: *from,
                to: *to,
                changes: changes.copy(alloc)?,
            }),
            Verdict::Looked { version, min } => Ok(Verdict::Looked {
                version: *version,
                min: *min,
            }),
            Verdict::Reinitialise { noted, min } => Ok(Verdict::Reinitialise {
                noted: *noted,
                min: *min,
            }),
            Verdict::NotTracked => Ok(Verdict::NotTracked),
        }
    }
}

impl Copies for CopyOut {
    fn copy(&self, alloc: Global) -> Result<CopyOut, Memory> {
        Ok(CopyOut {
            noted: self.noted,
            rows: self.rows.copy(alloc)?,
        })
    }
}
