ghost use Rattle.std.specs.Prelude.{◌≡◌};
ghost use Rattle.ct_types.specs.Answers.{Gives};
ghost use Rattle.ct_write.specs.Writes as spec;

use ct_expr::{Env, Versions, eval};
use ct_types::{Bin, BoundExpr, List, Refusal, Row, Text, Value};
use std::alloc::Global;

/// The most bytes that a context has.
const MAX_CONTEXT: usize = 128;

fn fit_context(alloc: Global, value: Value) -> Result<Option<Bin>, Refusal>
    ensures { Gives (spec.fit_context value) result }
{
    match value {
        Value::Bytes(bytes) => {
            if bytes.as_bytes().len() <= MAX_CONTEXT {
                Ok(Some(bytes))
            } else {
                Err(Refusal::TooLong {
                    column: Text::of(alloc, "CHANGE_TRACKING_CONTEXT")?,
                })
            }
        }
        _ => Ok(None),
    }
}

/// The bytes of WITH CHANGE_TRACKING_CONTEXT; none where it is not written, and where it is NULL.
pub(crate) fn context_of<L: Versions>(
    alloc: Global,
    context: &Option<BoundExpr>,
    env: &Env<'_>,
    versions: &L,
) -> Result<Option<Bin>, Refusal>
    ensures { Gives (spec.context_of (record { env = env.now; versions = L.row_of versions.now }) context.now) result }
{
    match context {
        None => Ok(None),
        Some(expr) => {
            let none = Row(List::new(alloc));
            fit_context(alloc, eval(alloc, expr, &none, env, versions)?)
        }
    }
}
