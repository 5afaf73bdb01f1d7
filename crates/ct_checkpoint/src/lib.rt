//! The writing of a checkpoint, and its reading, piece by piece, up to its first fault.
//!
//! The pieces so far are those of one valid database without its end, and the next one goes on with it, or the reading stops.
//! All rules here are this project's own.
#![tactic(auto)]

mod following;
mod gathering;
mod law;
mod reading;
mod writing;

pub use law::order_is_exact;
pub use reading::{CheckpointFault, get_db, read_checkpoint};
pub use writing::put_db;
