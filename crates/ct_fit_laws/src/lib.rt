//! The laws that what a statement writes fits its table, and that what it gives a variable is representable.
#![tactic(auto)]

mod laws;

pub use laws::{valid_rows_fit, variables_stay_representable};
