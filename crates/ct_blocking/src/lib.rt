//! The refusal 1222: of who wants a key, or a table of which another session holds a key.
#![tactic(auto)]

mod blocked;

pub use blocked::{blocked_keys, blocked_table};
