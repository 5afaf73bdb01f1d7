ghost use Rattle.ct_value_laws.specs.Laws.{BoundWritesFit, WalkedAreRepresentable};

/// What an expression is bound to comes to a number of 64 bits, a text of code points, bytes or NULL, where its text literals, the
/// row and the variables are such.
#[tactic(auto, using(crate::proofs::Walked::walked_are_representable))]
pub fn walked_are_representable()
    ensures { WalkedAreRepresentable }
{}

/// The rows that a write comes to fit the columns of its table, where its text literals, the rows and the variables are such.
#[tactic(auto, using(crate::proofs::Writing::bound_writes_fit))]
pub fn bound_writes_fit()
    ensures { BoundWritesFit }
{}
