ghost use Rattle.std.specs.Prelude.{◌≡◌};
ghost use Rattle.ct_expr.specs.Numbers as spec;

use ct_types::{Comparison, Refusal, Value, cmp_value};
use std::cmp::Ordering;

/// The sum of two numbers; NULL where one is NULL.
pub(crate) fn plus(a: &Value, b: &Value) -> Result<Value, Refusal>
    ensures { result ≡ spec.plus a.now b.now }
{
    match (a, b) {
        (Value::Int(a), Value::Int(b)) => number(a.checked_add(*b)),
        _ => Ok(Value::Null),
    }
}

/// The difference of two numbers; NULL where one is NULL.
pub(crate) fn minus(a: &Value, b: &Value) -> Result<Value, Refusal>
    ensures { result ≡ spec.minus a.now b.now }
{
    match (a, b) {
        (Value::Int(a), Value::Int(b)) => number(a.checked_sub(*b)),
        _ => Ok(Value::Null),
    }
}

/// The product of two numbers; NULL where one is NULL.
pub(crate) fn times(a: &Value, b: &Value) -> Result<Value, Refusal>
    ensures { result ≡ spec.times a.now b.now }
{
    match (a, b) {
        (Value::Int(a), Value::Int(b)) => number(a.checked_mul(*b)),
        _ => Ok(Value::Null),
    }
}

/// A number with the other sign; NULL of NULL, and of a value that is no number. `Overflow` where it does not fit 64 bits, as
/// that of the least number does not.
pub fn negative(a: &Value) -> Result<Value, Refusal>
    ensures { result ≡ spec.negative a.now }
{
    match a {
        Value::Int(a) => number(a.checked_neg()),
        _ => Ok(Value::Null),
    }
}

fn number(n: Option<i64>) -> Result<Value, Refusal>
    ensures { result ≡ spec.checked n }
{
    match n {
        Some(n) => Ok(Value::Int(n)),
        None => Err(Refusal::Overflow),
    }
}

pub(crate) fn is_null(a: &Value) -> bool
    ensures { result ≡ spec.is_null a.now }
{
    matches!(a, Value::Null)
}

fn holds(operator: Comparison, order: Ordering) -> bool
    ensures { result ≡ spec.holds operator order }
{
    match operator {
        Comparison::Equal => order == Ordering::Equal,
        Comparison::NotEqual => order != Ordering::Equal,
        Comparison::Less => order == Ordering::Less,
        Comparison::AtMost => order != Ordering::Greater,
        Comparison::More => order == Ordering::Greater,
        Comparison::AtLeast => order != Ordering::Less,
    }
}

/// Whether a comparison holds; unknown where a value is NULL.
pub(crate) fn compare(operator: Comparison, a: &Value, b: &Value) -> Option<bool>
    ensures { result ≡ spec.compare operator a.now b.now }
{
    if is_null(a) || is_null(b) {
        None
    } else {
        Some(holds(operator, cmp_value(a, b)))
    }
}
