//! The laws that what binding answers is well formed.
#![tactic(auto)]

mod laws;

pub use laws::{bound_are_well_formed, bound_store_well, valid_are_sound, walked_are_well_formed};
