//! The laws of what evaluation, queries and writes refuse, each refusal with its cause.
#![tactic(auto)]

mod laws;

pub use laws::{
    answers_refuse_overflow, evaluation_refuses_overflow, overflows_are_refused, writes_refuse,
};
