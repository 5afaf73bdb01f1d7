//! The laws that expressions come to representable values, and that the rows which a write comes to fit their table.
#![tactic(auto)]

mod laws;

pub use laws::{bound_writes_fit, walked_are_representable};
