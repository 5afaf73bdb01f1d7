ghost use Rattle.ct_expr_laws.specs.Laws.{ValuesHaveTheirKind, ValuesHaveTheirType};

/// A well-formed expression comes to a value of its kind, wherever the row and the variables are of the kinds that its
/// scope says. A condition has no value.
#[tactic(auto, using(crate::proofs::Values::values_have_their_kind))]
pub fn values_have_their_kind()
    ensures { ValuesHaveTheirKind }
{}

/// Where the kind of an expression may stand for that of a column's type, the expression comes to a value that has the
/// type's kind.
#[tactic(auto, using(crate::proofs::Types::values_have_their_type))]
pub fn values_have_their_type()
    ensures { ValuesHaveTheirType }
{}
