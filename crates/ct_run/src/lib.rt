//! The top call: it reads a script, plays it and writes the transcript.
#![tactic(auto)]

mod command;
mod gate;
mod laws;
mod play;
mod status;
mod top;

pub use gate::{Gate, NoGate};
pub use laws::{
    completes, keeps_sound_alone, meant_are_read, meant_plays_keep_valid, one_command, one_run,
    one_transcript, read_plays_keep_valid, sound_rows_fit,
};
pub use status::Status;
pub use top::{Done, run_top};
