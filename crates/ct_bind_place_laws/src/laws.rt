ghost use Rattle.ct_bind_place_laws.specs.Laws.{ExpressionsHaveCauses, StatementsHaveCauses};

/// An expression that is refused at a place of a statement has a part with the cause: for NoColumn one that names a column which
/// no source of the row has, or which its source lacks, or a list that is not that of the key; for Ambiguous one that names a column
/// which the row has more than once; for TypeClash one of which an operand has a kind that is not wanted there, or two operands have
/// kinds that do not go together, or a column where none may be named. Of other refusals nothing is said.
pub fn expressions_have_causes()
    ensures { ExpressionsHaveCauses }
{}

/// A statement with expressions that is refused NoColumn, Ambiguous or TypeClash has the cause: in one of its expressions, at the
/// place where that stands; in one that has another kind than its place wants; or in a name of its own: a column that INSERT or
/// UPDATE lists and the table has not, or that is listed twice, a source that has the name of one before, `name.*` of no source, or
/// `*` without one.
pub fn statements_have_causes()
    ensures { StatementsHaveCauses }
{}
