//! Whether a CHANGETABLE(VERSION ..) stands in a statement.
#![tactic(auto)]

mod expressions;
mod statements;

pub use statements::asks_versions;
