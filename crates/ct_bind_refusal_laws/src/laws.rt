ghost use Rattle.ct_bind_refusal_laws.specs.Laws.{RefusalsHaveCauses, BoundHaveNoCause};
ghost use Rattle.ct_bind_refusal_laws.specs.Own.{RefusesOnlyItsOwn};

/// Whatever binding refuses has the cause that its refusal names; of a column that is not there or ambiguous, and of kinds that clash, no
/// cause is stated.
pub fn refusals_have_causes()
    ensures { RefusalsHaveCauses }
{}

/// Binding refuses nothing but what is its own to refuse: so never with a fault of syntax, of a transaction, of the disk or of memory, nor
/// with anything that only a run can find.
pub fn refuses_only_its_own()
    ensures { RefusesOnlyItsOwn }
{}

/// A statement that is bound has the cause of no refusal, where a cause is stated.
pub fn bound_have_no_cause()
    ensures { BoundHaveNoCause }
{}
