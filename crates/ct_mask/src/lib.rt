//! Sets of column ids: which columns an update set.
#![tactic(auto)]

mod laws;
mod mask;
mod reading;

pub use laws::reads_what_it_has;
pub use mask::Mask;
pub use reading::read;
