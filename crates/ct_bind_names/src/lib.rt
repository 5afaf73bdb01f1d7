//! Names and numbers as statements write them, and the look-ups by name: tables, columns, variables.
#![tactic(auto)]

mod catalogue;
mod names;
mod numbers;

pub use catalogue::{
    SystemTable, declared_variable, existing_table, is_declared, place_after, system_table,
    table_named, tracked_table,
};
pub use names::{is_among, last_part, place_of, same_name, table_name};
pub use numbers::{column_type, literal, retention_of};
