use crate::{Bin, Key, Op};

/// How a table is tracked: the least version that a client may hold, and whether updates record their columns.
#[derive(Clone, Copy, Debug, PartialEq, Eq)]
pub struct Tracked {
    pub min: u64,
    pub masks: bool,
}

/// One row of CHANGETABLE(CHANGES ..): the net change of one key.
#[derive(Debug, Drop)]
pub struct NetRow {
    pub version: u64,
    /// The version of the last insert since the version that the client named; none where there is none.
    pub creation: Option<u64>,
    pub op: Op,
    /// The columns that the updates set; none where they are not told, which means all.
    pub mask: Option<u64>,
    pub context: Option<Bin>,
    pub key: Key,
}

/// The row of CHANGETABLE(VERSION ..): the version and the context of the last kept change of a key, none twice where
/// there is no such change.
#[derive(Debug, Drop)]
pub struct VersionRow {
    pub version: Option<u64>,
    pub context: Option<Bin>,
}
