use ct_types::{Comparison, Expr};
use std::alloc::Global;

/// What is read with a level less left: what brackets hold, or the operand of a prefix operator.
#[derive(Clone, Copy, Debug, PartialEq, Eq)]
pub enum Entry {
    /// An expression in brackets, or an argument of a function.
    Whole,
    /// The operand of NOT.
    Negated,
    /// The operand of the sign `-`.
    Signed,
}

/// The test that may follow a sum: a comparison with another sum, or IS with NULL or NOT NULL.
#[derive(Debug, Drop)]
pub enum Test {
    Compared(Comparison, Expr),
    Null,
    NotNull,
}

/// The readers of one level. Each calls those of its own level by name, and `expr` for what is read with a level less
/// left; so each is proved by itself, whatever `expr` is, as long as it reads as the rules say.
#[derive(Clone, Copy)]
pub struct Parser<F> {
    pub alloc: Global,
    /// The levels that are left for `expr`.
    pub depth: usize,
    pub expr: F,
}
