//! The test whether an entry applies to a database, and those of what a valid database is made of.
#![tactic(auto)]

mod acts;
mod applying;
mod holds;
mod names;
mod rising;
mod schemas;
mod valid;
mod writes;

pub use acts::{any_tracked, are_rising, is_new_schema, min_rises};
pub use applying::{MOST, applies, time_applies, version_applies};
pub use holds::{key_fits, row_fits};
pub use names::is_same_name;
pub use rising::rise_behind;
pub use schemas::{is_schema, name_bytes};
pub use valid::{comes_before, is_keep_valid, is_kept_valid, is_tracked_valid};
pub use writes::{context_applies, is_within, row_applies, was_present};
