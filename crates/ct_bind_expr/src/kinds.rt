ghost use Rattle.std.specs.Prelude.{◌≡◌};
ghost use Rattle.ct_bind_expr.specs.Places as spec;

use crate::made::where_meant;
use crate::place::Typed;
use ct_bind_kinds::{Kind, is_value, suits};
use ct_types::{BoundExpr, Refusal};

fn is_a(kind: Kind, wanted: Kind) -> bool
    ensures { result ≡ spec.is_a kind wanted }
{
    match wanted {
        Kind::Condition => kind == Kind::Condition,
        _ => suits(kind, wanted),
    }
}

/// The expression, where it may stand for one of this kind: TypeClash elsewhere. A condition stands for a condition
/// alone, a value for one of its kind, NULL for every value.
pub fn of_kind(wanted: Kind, it: Typed) -> Result<BoundExpr, Refusal>
    ensures { result ≡ spec.of_kind wanted it }
{
    where_meant(is_a(it.kind, wanted), it.expr)
}

/// The expression, where it is a value: TypeClash where it is a condition.
pub fn any_value(it: Typed) -> Result<BoundExpr, Refusal>
    ensures { result ≡ spec.any_value it }
{
    where_meant(is_value(it.kind), it.expr)
}

/// Whether two expressions are values of one kind, NULL aside.
pub(crate) fn go_together(a: Kind, b: Kind) -> bool
    ensures { result ≡ spec.go_together a b }
{
    is_value(a) && suits(b, a)
}
