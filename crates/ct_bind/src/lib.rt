//! Binding of statements: what a statement means in a catalogue and among variables, or the first refusal.
#![tactic(auto)]

mod hold;
mod queries;
mod sources;
mod statement;
mod writes;

pub use statement::bind;
