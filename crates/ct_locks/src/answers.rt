/// A key that another session holds.
#[derive(Clone, Copy, Debug, PartialEq, Eq)]
pub struct Blocked {
    /// Its place among the keys that were asked for, counted from 0.
    pub key: u32,
    /// The least other session that holds it.
    pub holder: u8,
}

/// Another session that holds a key of a table.
#[derive(Clone, Copy, Debug, PartialEq, Eq)]
pub struct Holder {
    /// The least such session.
    pub session: u8,
    /// The place of its first key of the table among all keys that it holds, in the order in which it took them, counted from 0.
    pub place: u32,
}
