//! The laws that what a commit writes to a disk, and what a checkpoint has of its database, can be spelled.
#![tactic(auto)]

mod laws;

pub use laws::{
    commits_stay_short, entries_are_short, entries_fit, few_changes_are_short, frames_are_short,
    pieces_fit, replays_stay_short, short_entries_fit, standing_pieces_fit,
};
