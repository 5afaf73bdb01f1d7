//! What CREATE TABLE and the statements that switch tracking come to, or their first refusal.
#![tactic(auto)]

mod table;
mod tracking;

pub use table::{create, is_in_sys};
pub use tracking::{alter_database, disable, enable};
