//! Disks: one in memory, which a crash may tear, and one over files.
//!
//! The one in memory is honest: it keeps to the model of a disk, and its clauses say what each call leaves, which calls
//! fail, and which of its images a crash gives. The one over files tells nothing of its content.
#![tactic(auto)]

mod areas;
mod call;
mod file_disk;
mod mem_disk;
mod replay;

pub use file_disk::{AtError, FileDisk};
pub use mem_disk::MemDisk;
