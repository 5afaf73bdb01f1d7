//! The script form: lines of statements with their sessions, in phases.
#![tactic(auto)]

mod error;
mod forms;
mod kind;
mod lanes;
mod laws;
mod lines;
mod phases;
mod read;
mod reading;
mod said;
mod schedule;
mod script;

pub use error::ScriptError;
pub use laws::{
    one_answer, plain_scripts_are_read_back, scripts_are_within, scripts_have_a_plain_form,
};
pub use read::read_script;
pub use script::{Lane, Phase, Script};
