//! What the bytes of a disk stand for: a database, or a fault at which their reading stops.
//!
//! These are definitions and their laws alone: a disk stands for one database at most, one that does is not foreign, one
//! record more makes the database with its entry applied, and areas that the current slot does not name play no part. All
//! rules are this project's own.
#![tactic(auto)]

mod law;

pub use law::{
    begun_stands, foreign_once, one_checkpoint, one_database, one_more_stands, only_named,
    same_records_stand, standing_is_not_foreign, stands_once, stands_so, written_stands,
};
