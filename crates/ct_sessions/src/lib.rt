//! The sessions of the server, with what each sees: the newest database, or that of its view, with its own writes that wait. They
//! hold the keys of those writes, and know what was changed since a view.
#![tactic(auto)]

mod commit;
mod kept;
mod laws;
mod own;
mod seat;
mod seats;
mod sessions;
mod states;
mod turns;
mod views;
mod waits;

pub use commit::Noted;
pub use laws::holds_for_alike;
pub use sessions::Sessions;
