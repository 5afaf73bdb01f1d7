use crate::{Key, Op, Row};

/// A moment of the database that a reader holds: how many entries are before it, and the version of the database there.
#[derive(Clone, Copy, Debug, PartialEq, Eq)]
pub struct View {
    pub at: u64,
    pub db_version: u64,
}

/// What a client looks at before it pulls: the least version of a tracked table that it may hold, and the version of the
/// database that it looks at.
#[derive(Clone, Copy, Debug, PartialEq, Eq)]
pub struct Window {
    pub min: u64,
    pub version: u64,
}

/// A net change as a client pulls it, with the row of the key; none where there is no such row any more.
#[derive(Debug, Drop)]
pub struct Pulled {
    pub op: Op,
    pub key: Key,
    pub row: Option<Row>,
}
