//! The versions of a table's rows, by key, and the rows that a view sees.
#![tactic(auto)]

mod rows;
mod rows_at;
mod version;
mod versions;

pub use rows::Rows;
pub use rows_at::RowsAt;
pub use version::Version;
