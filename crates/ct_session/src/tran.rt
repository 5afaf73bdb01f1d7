use ct_types::View;

/// The transaction of a session.
///
/// T-SQL: BEGIN TRANSACTION, SET TRANSACTION ISOLATION LEVEL. When a view is taken is this project's own.
#[derive(Clone, Copy, Debug, PartialEq, Eq)]
pub enum Tran {
    /// None is open: each statement commits by itself.
    None,
    /// One under READ COMMITTED: each statement reads the newest database.
    Committed,
    /// One under SNAPSHOT that has no view yet.
    Snapshot,
    /// One under SNAPSHOT that reads from this view.
    Viewed(View),
}
