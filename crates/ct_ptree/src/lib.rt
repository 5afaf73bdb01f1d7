//! An ordered map whose shares have in common what did not change: a share costs the same whatever the size, and a change
//! costs a logarithm.
#![tactic(auto)]

mod branch;
mod leaf;
mod pair;
mod range;
mod root;
mod slot;
mod tree;

pub use pair::Pair;
pub use range::Range;
pub use tree::Tree;
