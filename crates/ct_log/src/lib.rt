//! The log of a disk's area: records behind gates, one appended at a time, so that a crash leaves all of a record or
//! nothing of it.
//!
//! An area begins with a gate, a byte that is open where it is 1 and closed otherwise. Behind an open gate stand the length
//! of a payload, in four bytes with the least first, the payload, and the next gate. The log ends at the first closed gate,
//! and what follows it is ignored. All rules here are this project's own.
#![tactic(auto)]

mod area;
mod fault;
mod framing;
mod law;
mod log;
mod reading;

pub use area::{read_area, read_front, write_synced};
pub use fault::{LogError, OpenFault};
pub use framing::frame;
pub use law::{logs_do_not_break, one_break, one_log};
pub use log::Log;
pub use reading::{LogEnd, Next, Scanned, next_record, scan};
