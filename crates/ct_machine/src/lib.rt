//! The machine that the server is: its state, its steps, its plays and the text of a journal, as definitions, with the
//! few tests of them that code makes and the laws that stand above them.
#![tactic(auto)]

mod checks;
mod decision;
mod laws;

pub use checks::{draws_version, has_number, wants_memory};
pub use decision::Decision;
pub use laws::{entries_draw, one_whole_play, plays_go_on, tracking_is_committed};
