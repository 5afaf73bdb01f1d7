//! The laws of the plain database: of entries that apply, of its net changes, of cleanup, and of copies that agree with it.
#![tactic(auto)]

mod cleanup;
mod deletes;
mod laws;
mod rows;

pub use cleanup::{cutoff_is_greatest, raises_apply};
pub use deletes::deleted_have_no_row;
pub use laws::{
    empty_is_valid, goes_on_agreeing, net_tells, never_lowers, outdates, replay_stays_valid,
    rows_agree, stays_valid,
};
pub use rows::{creations, masks_tell, versions_tell};
