//! The core of the server: the newest database with the machine's bookkeeping, behind one call for each event.
#![tactic(auto)]

mod assign;
mod changes;
mod core_state;
mod decide;
mod reads;
mod system;
mod versions;
mod writing;

pub use core_state::Core;
