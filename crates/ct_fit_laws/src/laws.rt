ghost use Rattle.ct_fit_laws.specs.Laws.{ValidRowsFit, VariablesStayRepresentable};

/// Where a valid database and variables with representable values are seen, the rows that a statement writes fit their
/// table.
pub fn valid_rows_fit()
    ensures { ValidRowsFit }
{}

/// Variables have representable values after every statement.
pub fn variables_stay_representable()
    ensures { VariablesStayRepresentable }
{}
