ghost use Rattle.std.specs.Prelude.{◌≡◌};
ghost use Rattle.ct_expr.specs.Logic as spec;

/// NOT of three-valued logic; none is unknown.
pub(crate) fn not3(a: Option<bool>) -> Option<bool>
    ensures { result ≡ spec.not3 a }
{
    match a {
        Some(a) => Some(!a),
        None => None,
    }
}

/// AND of three-valued logic.
pub(crate) fn and3(a: Option<bool>, b: Option<bool>) -> Option<bool>
    ensures { result ≡ spec.and3 a b }
{
    match (a, b) {
        (Some(false), _) | (_, Some(false)) => Some(false),
        (Some(true), Some(true)) => Some(true),
        _ => None,
    }
}

/// OR of three-valued logic.
pub(crate) fn or3(a: Option<bool>, b: Option<bool>) -> Option<bool>
    ensures { result ≡ spec.or3 a b }
{
    match (a, b) {
        (Some(true), _) | (_, Some(true)) => Some(true),
        (Some(false), Some(false)) => Some(false),
        _ => None,
    }
}
