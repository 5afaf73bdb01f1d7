//! The bytes of log entries and of the pieces of a checkpoint: each has one spelling, and whatever is read was spelled so.
//!
//! All rules here are this project's own. The laws of this crate say that readers and spellings fit each other.
#![tactic(auto)]

mod entry;
mod fault;
mod fitting;
mod input;
mod law;
mod output;
mod piece;
mod schemas;
mod spelled;
mod values;
mod writes;

pub use entry::{entry_size, get_entry, put_entry};
pub use fault::CodecError;
use input::Input;
pub use law::{
    entry_begins_no_other, entry_is_exact, entry_reads_back, piece_begins_no_other, piece_is_exact,
};
pub use piece::{get_piece, put_any_piece, put_piece};
