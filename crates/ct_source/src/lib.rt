//! The rows of a table by key, which are changed in place and shared without a copy, and rows as statements read them.
#![tactic(auto)]

mod cells;
mod index;
mod lending;
mod plain;
mod source;
mod stored;

pub use index::Index;
pub use source::Source;
pub use stored::Stored;
