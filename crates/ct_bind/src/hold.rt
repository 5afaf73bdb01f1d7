//! What is held while a step is taken. A value of any type is let go of by one call, where a tree would be taken apart in
//! each place that lets it go.

ghost use Rattle.std.specs.Prelude.{◌≡◌, Ok, Err, MatchResult, if◌then◌else◌};
ghost use Rattle.ct_types.specs.declared.refusal.Refusal.TheVariants.{TypeClash};

use ct_types::Refusal;

/// What a step comes to, and beside it what was held meanwhile.
pub(crate) fn with_held<A, B: Drop, E>(step: Result<A, E>, held: B) -> Result<(A, B), E>
    ensures { MatchResult result (λ pair. (step ≡ Ok pair.0) × (pair.1 ≡ held)) (λ fault. step ≡ Err fault) }
{
    match step {
        Ok(made) => Ok((made, held)),
        Err(fault) => Err(fault),
    }
}

/// The value where the test holds: TypeClash elsewhere.
pub(crate) fn demanded<T: Drop>(holds: bool, value: T) -> Result<T, Refusal>
    ensures { result ≡ (if holds then Ok value else Err TypeClash) }
{
    if holds {
        Ok(value)
    } else {
        Err(Refusal::TypeClash)
    }
}
