ghost use Rattle.std.specs.Prelude.{◌≡◌};
ghost use Rattle.ct_bind_kinds.specs.Kinds as spec;

use ct_types::ColType;

/// What an expression gives, as far as binding tells it.
#[derive(Clone, Copy, Debug, PartialEq, Eq)]
pub enum Kind {
    Number,
    Text,
    Bytes,
    /// True, false or unknown, which is no value.
    Condition,
    /// NULL, which is a value and goes with each kind.
    Null,
}

/// The kind of a column or a variable: a number for INT and BIGINT, a text for NVARCHAR, bytes for VARBINARY. The rule
/// is this project's own; in T-SQL a type converts to many others.
pub fn kind_of_type(kind: ColType) -> Kind
    ensures { result ≡ spec.kind_of_type kind }
{
    match kind {
        ColType::Int | ColType::BigInt => Kind::Number,
        ColType::NVarChar(_) => Kind::Text,
        ColType::VarBinary(_) => Kind::Bytes,
    }
}

/// Whether two kinds go together: they are one, or one of them is that of NULL.
pub fn agree(a: Kind, b: Kind) -> bool
    ensures { result ≡ spec.agree a b }
{
    a == b || a == Kind::Null || b == Kind::Null
}

/// Whether an expression of this kind stands for a value: all but a condition do.
pub fn is_value(kind: Kind) -> bool
    ensures { result ≡ spec.is_value kind }
{
    kind != Kind::Condition
}

/// Whether this kind may stand where that one is wanted: they agree, and it is the kind of a value.
pub fn suits(kind: Kind, wanted: Kind) -> bool
    ensures { result ≡ spec.suits kind wanted }
{
    is_value(kind) && agree(kind, wanted)
}

/// The kind of the values that two kinds stand for: the first, or the second where the first is that of NULL.
pub fn either(a: Kind, b: Kind) -> Kind
    ensures { result ≡ spec.either a b }
{
    if a == Kind::Null { b } else { a }
}
