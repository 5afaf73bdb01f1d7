//! The database in memory: an entry changes it in place, at the cost of what it touches, and a share of it costs a step a table.
#![tactic(auto)]

mod acts;
mod by_table;
mod changing;
mod chunk;
mod commits;
mod committed;
mod database;
mod forgotten;
mod fresh;
mod last;
mod laws;
mod needed;
mod net;
mod noted;
mod older;
mod plain;
mod sealed;
mod tables;
mod told;
mod version;
mod waiting;
mod writes;

pub use committed::Committed;
pub use database::Database;
pub use laws::{applying_is_storable, changes_of_own_commits};
