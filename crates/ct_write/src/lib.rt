//! What INSERT, UPDATE and DELETE write: the rows that they change, fitted to their columns, and the keys that an INSERT
//! repeats.
#![tactic(auto)]

mod changes;
mod contexts;
mod duplicates;
mod fitting;
mod laws;
mod masks;
mod statement;
mod values;

pub use duplicates::duplicate;
pub use fitting::fit_value;
pub use laws::{are_accepted, deletes_all, updates_keep_keys};
pub use statement::writes;
