use ct_types::Row;

/// A row as an entry left it. A view is the count of the entries that it sees.
#[derive(Drop)]
pub struct Version {
    /// The count of entries with the one that wrote it: the views from this one on see it.
    pub at: u64,
    /// The transaction that wrote it.
    pub xdes: u64,
    /// None where the entry deleted the row.
    pub row: Option<Row>,
}
