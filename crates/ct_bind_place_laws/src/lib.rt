//! The laws of the causes of refusals that hang on a place of a statement: names of columns, and kinds.
#![tactic(auto)]

mod laws;

pub use laws::{expressions_have_causes, statements_have_causes};
