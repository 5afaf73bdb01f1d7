//! The parser: statements from tokens, exactly by the grammar.
#![tactic(auto)]

mod law;
mod levels;
mod parts;
mod select;
mod session;
mod sources;
mod statement;
mod trees;
mod writes;

pub use law::{answers_once, reads_exactly};
pub use statement::parse;
