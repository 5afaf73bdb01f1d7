//! The keys that sessions hold until their transactions end: who holds a key, and what a session takes and lets go.
#![tactic(auto)]

mod answers;
mod held;
mod key_sets;
mod locks;
mod sessions;
mod taken;

pub use answers::{Blocked, Holder};
pub use locks::Locks;
