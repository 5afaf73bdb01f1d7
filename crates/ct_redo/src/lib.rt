//! The records of a log added to the database in memory, in place, each in the cost of what its entry touches.
//!
//! What the records make of a database is said by ct_replay's definitions. All rules are this project's own.
#![tactic(auto)]

mod acts;
mod adding;
mod applying;
mod keys;
mod reading;
mod writes;

pub use applying::applies;
pub use reading::{Replayed, replay_log};
