//! What the records of a log make of a database: the payload of each spells an entry, which applies to what those before it
//! made.
//!
//! All rules here are this project's own. The laws of this crate say that bytes make one database of another, or break off
//! at one place.
#![tactic(auto)]

mod adding;
mod keys;
mod law;
mod reading;

pub use adding::{added, spelled_entry};
pub use law::{
    is_replay, one_break, one_entry, one_more, one_replay, replays_do_not_break, same_records,
};
pub use reading::{LogFault, Replayed, replay_log};
