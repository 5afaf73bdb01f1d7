//! The kinds of expressions: which bound expressions are well formed, and what each gives.
#![tactic(auto)]

mod kind;

pub use kind::{Kind, agree, either, is_value, kind_of_type, suits};
