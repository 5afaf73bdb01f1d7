//! The net changes of a table, one row for each key that changed, in one pass over the changes.
#![tactic(auto)]

mod gathering;
mod laws;
mod net;
mod state;
mod whole;

pub use laws::changes_from_floor;
pub use net::net_of_kept;
