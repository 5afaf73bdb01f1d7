//! What is held while more is read. A value of any type is let go by one call, where a tree would be taken apart in each
//! place that lets it go.

ghost use Rattle.std.specs.Prelude.{◌≡◌, IfOk, IfErr, Ok, Err};
ghost use Rattle.ct_grammar.specs.Reading.{Reads, making, need};

use ct_grammar::{Cursor, Fault, Kind};

/// What is held, once the next token is taken, which has to be of this kind.
pub fn then_skip<T: Drop>(held: T, tokens: &mut Cursor<'_>, kind: Kind) -> Result<T, Fault>
    ensures { Reads (making (λ _. held) (need kind) tokens.old) result tokens.new }
{
    tokens.skip(kind)?;
    Ok(held)
}

/// What is held, and beside it what is read, unless it is not.
pub fn beside<A: Drop, B>(held: A, read: Result<B, Fault>) -> Result<(A, B), Fault>
    ensures ok { IfOk result (λ pair. (read ≡ Ok pair.1) × (pair.0 ≡ held)) }
    ensures err { IfErr result (λ fault. read ≡ Err fault) }
{
    match read {
        Ok(value) => Ok((held, value)),
        Err(fault) => Err(fault),
    }
}
