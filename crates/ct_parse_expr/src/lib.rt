//! Names and expressions of the language, read from tokens exactly by their rules.
#![tactic(auto)]

mod hold;
mod level;
mod names;
mod operators;
mod primary;
mod trees;
mod values;

pub use hold::{beside, then_skip};
pub use level::Entry;
pub use names::{alias, name_list};
pub use trees::with_first;
pub use values::{tuple, value, version, version_tail};
