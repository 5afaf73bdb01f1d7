//! Area 0 of a disk: two slots, of which the current one names the areas in which the database stands, and the steps by
//! which another slot becomes current, so that a crash leaves the one or the other.
//!
//! Area 0 begins with a mark and two slots, and what follows these is ignored. A slot has a gate, which is open where its
//! byte is 1. Of two open slots the current one is that whose turn is the other's plus 1, modulo 4. A disk whose area 0 is
//! too short, or has its mark and no open slot, is unfinished, and stands for the empty database. All rules here are this
//! project's own.
#![tactic(auto)]

mod finishing;
mod flipping;
mod law;
mod reading;
mod slot;
mod starting;

pub use finishing::finish_disk;
pub use flipping::flip;
pub use law::{
    closed_is_ignored, fresh_is_current, named_is_canonical, next_is_current, one_of_three,
    one_offset, one_slot, rest_is_ignored,
};
pub use reading::read_current;
pub use slot::Super;
pub use starting::{start, write_piece};
