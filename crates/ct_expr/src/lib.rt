//! What bound expressions mean on a row, and the evaluator that gives it.
#![tactic(auto)]

mod beside;
mod env;
mod evaluator;
mod functions;
mod laws;
mod logic;
mod numbers;
mod tables;

pub use env::{Env, Versions};
pub use evaluator::{eval, holds, pair_holds, row_version, truth};
pub use functions::{bytes_or_null, counted, counted_or_null, one_or_zero, variable_at};
pub use laws::{de_morgan, double_negation, mirror, text_names};
pub use numbers::negative;
pub use tables::table_named;
