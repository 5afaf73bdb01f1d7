ghost use Rattle.std.specs.Prelude.{◌≡◌, IfOk, map};
ghost use Rattle.ct_scan.specs.Readings as spec;

use crate::Seen;
use ct_expr::{Env, counted_or_null, negative, variable_at};
use ct_types::{BoundExpr, BoundRowVersion, BoundScalar, Comparison, Copies, Memory, Value};
use std::alloc::Global;

/// The value that a condition pins the column at a place to, counted from 0: none where it pins it to none, or may refuse on a row that
/// does not have the value.
///
/// A condition pins a column where it is a comparison for equality of the column with a value that is known without the row, or an AND
/// with such an operand. Known are literals, variables, the current version, the values that are seen, and signs before these. It may
/// refuse where it has a sum, a difference, a product, or a sign before another value. `Memory` is the only error.
pub fn pinned(
    alloc: Global,
    condition: &BoundExpr,
    at: u32,
    env: &Env<'_>,
    seen: &Seen<'_>,
) -> Result<Option<Value>, Memory>
    ensures { IfOk result (λ value. value ≡ spec.pinned env.now seen.now at condition.now) }
{
    let reader = Reader {
        alloc,
        env,
        seen,
        at,
    };
    if reader.is_quiet(condition)? {
        reader.pin(condition)
    } else {
        Ok(None)
    }
}

/// A sign before a known value.
fn negated(known: Option<Value>) -> Option<Value>
    ensures { result ≡ spec.negated known }
{
    match known {
        Some(value) => negative(&value).ok(),
        None => None,
    }
}

/// What an expression tells before its row is known.
#[derive(Drop)]
struct Reader<'a> {
    alloc: Global,
    env: &'a Env<'a>,
    seen: &'a Seen<'a>,
    /// The place of the column.
    at: u32,
}

impl Reader<'_> {
    /// The value that an expression has on every row.
    fn known(&self, expr: &BoundExpr) -> Result<Option<Value>, Memory>
        ensures { IfOk result (λ value. value ≡ (spec.reading self.now.env.now self.now.seen.now self.now.at expr.now).known) }
    {
        let env = self.env;
        match expr {
            BoundExpr::Null => Ok(Some(Value::Null)),
            BoundExpr::Number(number) => Ok(Some(Value::Int(*number))),
            BoundExpr::Text(text) => Ok(Some(Value::Text(text.copy(self.alloc)?))),
            BoundExpr::Bytes(bytes) => Ok(Some(Value::Bytes(bytes.copy(self.alloc)?))),
            BoundExpr::Column(place) => self.seen.value_at(self.alloc, *place),
            BoundExpr::Variable(place) => {
                Ok(Some(variable_at(self.alloc, env.variables.0.as_slice(), *place)?))
            }
            BoundExpr::CurrentVersion => Ok(Some(counted_or_null(env.current))),
            BoundExpr::Negative(a) => Ok(negated(self.known(a.get())?)),
            _ => Ok(None),
        }
    }

    /// Whether an expression comes to a value and a truth on every row.
    #[cycle(quiet)]
    fn is_quiet(&self, expr: &BoundExpr) -> Result<bool, Memory>
        ensures { IfOk result (λ quiet. quiet ≡ (spec.reading self.now.env.now self.now.seen.now self.now.at expr.now).quiet) }
    {
        match expr {
            BoundExpr::Negative(a) => Ok(negated(self.known(a.get())?).is_some()),
            BoundExpr::Product(_) | BoundExpr::Sum(_, _) => Ok(false),
            BoundExpr::MinValidVersion(a)
            | BoundExpr::ObjectId(a)
            | BoundExpr::IsNull(a)
            | BoundExpr::IsNotNull(a)
            | BoundExpr::Not(a) => self.is_quiet(a.get()),
            BoundExpr::IsColumnInMask(a, b)
            | BoundExpr::IfNull(a, b)
            | BoundExpr::Compare(_, a, b) => Ok(self.is_quiet(a.get())? && self.is_quiet(b.get())?),
            BoundExpr::ColumnProperty(a, b, c) => {
                Ok(self.is_quiet(a.get())? && self.is_quiet(b.get())? && self.is_quiet(c.get())?)
            }
            BoundExpr::Scalar(scalar) => self.is_scalar_quiet(scalar.get()),
            BoundExpr::And(operands) | BoundExpr::Or(operands) => self.are_quiet(
                operands.as_slice(),
            ),
            _ => Ok(true),
        }
    }

    #[cycle(quiet)]
    #[tactic(auto, using(crate::proofs::Loops::quiet_loop))]
    fn are_quiet(&self, parts: &[BoundExpr]) -> Result<bool, Memory>
        ensures { IfOk result (λ quiet. quiet ≡ spec.all_quiet (map (spec.reading self.now.env.now self.now.seen.now self.now.at) parts.now)) }
    {
        for part in parts {
            if !self.is_quiet(part)? {
                return Ok(false);
            }
        }
        Ok(true)
    }

    #[cycle(quiet)]
    fn is_version_quiet(&self, version: &BoundRowVersion) -> Result<bool, Memory>
        ensures { IfOk result (λ quiet. quiet ≡ spec.version_quiet self.now.env.now self.now.seen.now self.now.at version.now) }
    {
        self.are_quiet(version.values.as_slice())
    }

    #[cycle(quiet)]
    fn is_scalar_quiet(&self, scalar: &BoundScalar) -> Result<bool, Memory>
        ensures { IfOk result (λ quiet. quiet ≡ spec.scalar_quiet self.now.env.now self.now.seen.now self.now.at scalar.now) }
    {
        self.is_version_quiet(&scalar.version)
    }

    /// Whether an expression is the column.
    fn is_column(&self, expr: &BoundExpr) -> bool
        ensures { result ≡ (spec.reading self.now.env.now self.now.seen.now self.now.at expr.now).is_column }
    {
        match expr {
            BoundExpr::Column(place) => *place == self.at,
            _ => false,
        }
    }

    /// The value that an equality of two expressions pins the column to.
    fn pinned_by(&self, a: &BoundExpr, b: &BoundExpr) -> Result<Option<Value>, Memory>
        ensures { IfOk result (λ value. value ≡ spec.pinned_by (spec.reading self.now.env.now self.now.seen.now self.now.at a.now) (spec.reading self.now.env.now self.now.seen.now self.now.at b.now)) }
    {
        if self.is_column(a) {
            self.known(b)
        } else if self.is_column(b) {
            self.known(a)
        } else {
            Ok(None)
        }
    }

    /// The value that the column has on every row on which a condition is true.
    #[cycle(pins)]
    fn pin(&self, condition: &BoundExpr) -> Result<Option<Value>, Memory>
        ensures { IfOk result (λ value. value ≡ (spec.reading self.now.env.now self.now.seen.now self.now.at condition.now).pins) }
    {
        match condition {
            BoundExpr::Compare(Comparison::Equal, a, b) => self.pinned_by(a.get(), b.get()),
            BoundExpr::And(operands) => self.first_pin(operands.as_slice()),
            _ => Ok(None),
        }
    }

    #[cycle(pins)]
    #[tactic(auto, using(crate::proofs::Loops::pin_loop))]
    fn first_pin(&self, operands: &[BoundExpr]) -> Result<Option<Value>, Memory>
        ensures { IfOk result (λ value. value ≡ spec.first_pin (map (spec.reading self.now.env.now self.now.seen.now self.now.at) operands.now)) }
    {
        for operand in operands {
            if let Some(value) = self.pin(operand)? {
                return Ok(Some(value));
            }
        }
        Ok(None)
    }
}
