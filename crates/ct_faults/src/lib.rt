//! The outside as traits: sources, sinks and disks, each with a count of its faults. A call answers that it failed
//! only where the count rose, so that a caller who reads the count before and after knows whom to blame.
//!
//! Beside the traits stand sources and sinks in memory, those over standard input and output, a disk that is none, and
//! the whole read and the whole write. All rules here are this project's own.
#![tactic(auto)]

mod disk;
mod fault;
mod mem_sink;
mod mem_source;
mod no_disk;
mod sink;
mod source;
mod std_sink;
mod std_source;
mod whole;

pub use disk::Disk;
pub use fault::{DiskFault, Failed, WriteFault};
pub use mem_sink::MemSink;
pub use mem_source::MemSource;
pub use no_disk::NoDisk;
pub use sink::Sink;
pub use source::Source;
pub use std_sink::StdSink;
pub use std_source::StdSource;
pub use whole::{ReadError, read_all, write_all};
