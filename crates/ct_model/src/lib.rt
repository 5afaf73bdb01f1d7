//! The database as plain lists: what an entry makes of it, and its net changes; by definition, also when an entry applies.
#![tactic(auto)]

mod changes;
mod db;
mod entries;
mod masks;
mod rows;
mod tables;
mod trim;

pub use changes::net;
pub use db::{Dated, Db, Table};
pub use entries::apply;
pub use rows::{cmp_row, has_key, has_row, key_of_row};
pub use tables::{find_table, write_one};
