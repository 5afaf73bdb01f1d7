//! What was written and altered since a view: the transaction that a writer with this view conflicts with.
#![tactic(auto)]

mod acts;
mod later;
mod stamps;

pub use later::Later;
