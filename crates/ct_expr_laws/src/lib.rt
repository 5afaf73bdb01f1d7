//! The laws that a well-formed expression comes to a value of its kind.
#![tactic(auto)]

mod laws;

pub use laws::{values_have_their_kind, values_have_their_type};
