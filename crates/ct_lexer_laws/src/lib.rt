//! The laws of what tokens mean: a text, bytes or a number that is written is one token and is read back, and every such token
//! was written so.
#![tactic(auto)]

mod laws;

pub use laws::{bytes_are_read_back, numbers_are_read_back, texts_are_read_back};
