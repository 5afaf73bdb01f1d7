//! The text of values, blocks and journals, as the transcript of a run has it.
#![tactic(auto)]

mod journal;
mod laws;
mod refusal;
mod reply;
mod transcript;
mod value;

pub use journal::print_block;
pub use laws::{transcripts_go_on, transcripts_grow};
pub use transcript::Transcript;
pub use value::print_value;
