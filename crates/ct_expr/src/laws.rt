ghost use Rattle.ct_expr.specs.Laws.{DeMorgan, DoubleNegation, Mirror, TextNames};

/// NOT of AND is OR of the NOTs, and NOT of OR is AND of the NOTs, on three values.
#[tactic(auto, using(crate::proofs::Truths::de_morgan))]
pub fn de_morgan()
    ensures { DeMorgan }
{}

/// NOT of NOT is the condition itself, on three values.
#[tactic(auto, using(crate::proofs::Truths::double_negation))]
pub fn double_negation()
    ensures { DoubleNegation }
{}

/// A comparison is its mirror with its sides exchanged.
#[tactic(auto, using(crate::proofs::Truths::mirror))]
pub fn mirror()
    ensures { Mirror }
{}

/// A text that is a name of a table, by the lexer's tokens and the grammar's rule, names the table of that name; a text that
/// is none names none.
#[tactic(auto, using(crate::proofs::TextNames::text_names))]
pub fn text_names()
    ensures { TextNames }
{}
