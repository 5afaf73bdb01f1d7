//! A session: its level, variables and transaction, with the writes that wait for the commit.
#![tactic(auto)]

mod session;
mod tran;
mod variables;

pub use session::Session;
pub use tran::Tran;
