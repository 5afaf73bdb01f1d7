//! The rows of a source on which a condition is true, and those that can make a pair with a row of a join: all are tested, or
//! those alone that have the value to which the condition pins a key, which is where it compares the key with a value that is
//! known without the row. For a join the rows of a source may be sorted by a column first, and are looked up by its values.
#![tactic(auto)]

mod conditions;
mod laws;
mod lookups;
mod orders;
mod partners;
mod reading;
mod seen;

pub use conditions::rows_where;
pub use laws::{pinned_over, pinned_rows};
pub use lookups::{index_of_lefts, index_of_rights};
pub use orders::stand_alike;
pub use partners::{lefts_of, rights_of};
pub use reading::pinned;
pub use seen::Seen;
