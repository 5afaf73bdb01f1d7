//! The laws of writes: which insert `duplicate` answers, told of the rows and the writes.
#![tactic(auto)]

mod laws;

pub use laws::duplicate_is_first;
