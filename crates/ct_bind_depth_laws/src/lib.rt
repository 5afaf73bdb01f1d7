//! The laws that binding makes nothing deeper.
#![tactic(auto)]

mod laws;

pub use laws::{bound_are_no_deeper, walked_are_no_deeper};
