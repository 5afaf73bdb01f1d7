//! A database on a disk: the disk is opened, that is settled and read, and where its database has two logs, written as a
//! checkpoint; entries are appended to the log that the current slot names last, so that a crash leaves the database before an
//! entry or with it.
//!
//! All rules here are this project's own.
#![tactic(auto)]

mod beginning;
mod condensing;
mod database;
mod fault;
mod framing;
mod law;
mod opening;
mod reading;
mod settling;
mod volume;

pub use database::{read_db, read_named};
pub use fault::VolumeError;
pub use law::{settled_keeps, settled_stands, settling_stands, stands_is_valid};
pub use opening::{Opened, Ready, make_ready, open_db};
pub use reading::{Found, replay_logs};
pub use settling::settle;
pub use volume::Volume;
