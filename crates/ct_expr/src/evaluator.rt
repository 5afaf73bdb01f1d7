ghost use Rattle.std.specs.Prelude.{◌≡◌, ◌++◌, IfSome, Some, Ok, not};
ghost use Rattle.ct_expr.specs.Meaning as spec;
ghost use Rattle.ct_expr.specs.Meaning.{scene};
ghost use Rattle.ct_expr.specs.Numbers.{compare as compare_values, is_null as is_null_value};
ghost use Rattle.ct_types.specs.Answers.{Gives};

use crate::beside::Beside;
use crate::functions::{
    column_property, counted_or_null, if_null, is_column_in_mask, min_valid_version, object_id,
    value_or_null, variable_at, variable_in, version_column, with,
};
use crate::logic::{and3, not3, or3};
use crate::numbers::{compare, is_null, minus, negative, plus, times};
use crate::{Env, Versions};
use ct_types::{
    BoundExpr, BoundRowVersion, BoundScalar, BoundTerm, Comparison, Copies, Key, List, Refusal,
    Row, Value, VersionRow,
};
use std::alloc::Global;

/// The value of an expression on a row; NULL of a condition, which has none.
///
/// # Errors
///
/// `Overflow` exactly where a sum, difference, product or sign anywhere in the expression does not fit 64 bits;
/// `Memory` for want of memory.
pub fn eval<L: Versions>(
    alloc: Global,
    expr: &BoundExpr,
    row: &Row,
    env: &Env<'_>,
    versions: &L,
) -> Result<Value, Refusal>
    ensures { Gives (spec.value (scene row.now env.now (L.row_of versions.now)) expr.now) result }
{
    Scene {
        alloc,
        row: &Beside::row(row),
        env,
        versions,
    }
    .value(expr)
}

/// The truth of a condition on a row. None is unknown, and stands also for an expression that is no condition. The
/// errors are those of `eval`.
pub fn truth<L: Versions>(
    alloc: Global,
    expr: &BoundExpr,
    row: &Row,
    env: &Env<'_>,
    versions: &L,
) -> Result<Option<bool>, Refusal>
    ensures { Gives (spec.truth (scene row.now env.now (L.row_of versions.now)) expr.now) result }
{
    Scene {
        alloc,
        row: &Beside::row(row),
        env,
        versions,
    }
    .truth(expr)
}

/// Whether a condition, as ON's or WHERE's, is true on a row, which unknown is not. A condition that is not written is true.
/// The errors are those of `eval`.
pub fn holds<L: Versions>(
    alloc: Global,
    condition: &Option<BoundExpr>,
    row: &Row,
    env: &Env<'_>,
    versions: &L,
) -> Result<bool, Refusal>
    ensures { Gives (spec.holds (record { env = env.now; versions = L.row_of versions.now }) condition.now row.now) result }
{
    match condition {
        None => Ok(true),
        Some(condition) => Ok(truth(alloc, condition, row, env, versions)? == Some(true)),
    }
}

/// Whether a condition, as ON's, is true on the row of a pair: the left row's values, then the right row's. It copies neither.
/// The rest is as in `holds`.
pub fn pair_holds<L: Versions>(
    alloc: Global,
    condition: &Option<BoundExpr>,
    left: &Row,
    right: &Row,
    env: &Env<'_>,
    versions: &L,
) -> Result<bool, Refusal>
    ensures { Gives (spec.holds (record { env = env.now; versions = L.row_of versions.now }) condition.now (record { 0 = left.now.0 ++ right.now.0 })) result }
{
    match condition {
        None => Ok(true),
        Some(condition) => {
            let scene = Scene {
                alloc,
                row: &Beside::pair(left, right),
                env,
                versions,
            };
            Ok(scene.truth(condition)? == Some(true))
        }
    }
}

/// The key that the values of CHANGETABLE(VERSION ..) make on a row, and the version row at that key. The errors are those of `eval`.
pub fn row_version<L: Versions>(
    alloc: Global,
    version: &BoundRowVersion,
    row: &Row,
    env: &Env<'_>,
    versions: &L,
) -> Result<(Key, VersionRow), Refusal>
    ensures { Gives (spec.row_version (scene row.now env.now (L.row_of versions.now)) version.now) result }
{
    Scene {
        alloc,
        row: &Beside::row(row),
        env,
        versions,
    }
    .row_version(version)
}

/// On what an expression is evaluated.
#[derive(Drop)]
struct Scene<'a, L> {
    alloc: Global,
    row: &'a Beside<'a>,
    env: &'a Env<'a>,
    versions: &'a L,
}

impl<L: Versions> Scene<'_, L> {
    #[cycle(values)]
    fn value(&self, expr: &BoundExpr) -> Result<Value, Refusal>
        ensures { Gives (spec.value (scene self.now.row.now self.now.env.now (L.row_of self.now.versions.now)) expr.now) result }
    {
        let env = self.env;
        match expr {
            BoundExpr::Null => Ok(Value::Null),
            BoundExpr::Number(number) => Ok(Value::Int(*number)),
            BoundExpr::Text(text) => Ok(Value::Text(text.copy(self.alloc)?)),
            BoundExpr::Bytes(bytes) => Ok(Value::Bytes(bytes.copy(self.alloc)?)),
            BoundExpr::Column(at) => { Ok(value_or_null(self.alloc, self.row.value_in(*at))?) },
            BoundExpr::Variable(at) => {
                Ok(variable_at(self.alloc, env.variables.0.as_slice(), *at)?)
            }
            BoundExpr::CurrentVersion => Ok(counted_or_null(env.current)),
            BoundExpr::MinValidVersion(table) => {
                let table = self.value(table.get())?;
                Ok(min_valid_version(env.tables, &table))
            }
            BoundExpr::IsColumnInMask(column, mask) => {
                let column = self.value(column.get())?;
                Ok(is_column_in_mask(&column, &self.value(mask.get())?))
            }
            BoundExpr::ObjectId(name) => {
                let name = self.value(name.get())?;
                Ok(object_id(self.alloc, env.tables, &name)?)
            }
            BoundExpr::ColumnProperty(table, column, property) => {
                let table = self.value(table.get())?;
                let column = self.value(column.get())?;
                Ok(column_property(env.tables, &table, &column, &self.value(property.get())?))
            }
            BoundExpr::IfNull(a, b) => Ok(if_null(self.value(a.get())?, self.value(b.get())?)),
            BoundExpr::Scalar(scalar) => self.scalar(scalar.get()),
            BoundExpr::Negative(a) => negative(&self.value(a.get())?),
            BoundExpr::Product(factors) => self.product(factors.as_slice()),
            BoundExpr::Sum(first, more) => self.sum(self.value(first.get())?, more.as_slice()),
            BoundExpr::Compare(_, _, _) => Ok(Value::Null),
            BoundExpr::IsNull(_) | BoundExpr::IsNotNull(_) | BoundExpr::Not(_) => Ok(Value::Null),
            BoundExpr::And(_) | BoundExpr::Or(_) => Ok(Value::Null),
        }
    }

    #[cycle(values)]
    fn multiplied(&self, so_far: Value, factor: &BoundExpr) -> Result<Value, Refusal>
        ensures { Gives (spec.multiplied so_far (spec.meaning (scene self.now.row.now self.now.env.now (L.row_of self.now.versions.now)) factor.now)) result }
    {
        times(&so_far, &self.value(factor)?)
    }

    #[cycle(values)]
    #[tactic(auto, using(crate::proofs::Chains::loops))]
    fn product(&self, factors: &[BoundExpr]) -> Result<Value, Refusal>
        ensures { Gives (spec.product (scene self.now.row.now self.now.env.now (L.row_of self.now.versions.now)) factors.now) result }
    {
        let mut made = Value::Int(1);
        for factor in factors {
            made = self.multiplied(made, factor)?;
        }
        Ok(made)
    }

    #[cycle(values)]
    fn added(&self, so_far: Value, term: &BoundTerm) -> Result<Value, Refusal>
        ensures { Gives (spec.added so_far (spec.operand (scene self.now.row.now self.now.env.now (L.row_of self.now.versions.now)) term.now)) result }
    {
        let value = self.value(&term.value)?;
        if term.subtracts {
            minus(&so_far, &value)
        } else {
            plus(&so_far, &value)
        }
    }

    #[cycle(values)]
    #[tactic(auto, using(crate::proofs::Chains::loops))]
    fn sum(&self, first: Value, more: &[BoundTerm]) -> Result<Value, Refusal>
        ensures { Gives (spec.sum (scene self.now.row.now self.now.env.now (L.row_of self.now.versions.now)) first more.now) result }
    {
        let mut made = first;
        for term in more {
            made = self.added(made, term)?;
        }
        Ok(made)
    }

    #[cycle(values)]
    fn listed(&self, so_far: List<Value>, part: &BoundExpr) -> Result<List<Value>, Refusal>
        ensures { Gives (spec.listed so_far (spec.meaning (scene self.now.row.now self.now.env.now (L.row_of self.now.versions.now)) part.now)) result }
    {
        let value = self.value(part)?;
        Ok(with(so_far, value)?)
    }

    #[cycle(values)]
    #[tactic(auto, using(crate::proofs::Chains::loops))]
    fn key(&self, parts: &[BoundExpr]) -> Result<Key, Refusal>
        ensures { Gives (spec.key (scene self.now.row.now self.now.env.now (L.row_of self.now.versions.now)) parts.now) result }
    {
        let mut values = List::new(self.alloc);
        for part in parts {
            values = self.listed(values, part)?;
        }
        Ok(Key(values))
    }

    /// The key that the values of CHANGETABLE(VERSION ..) make, and the row at that key.
    #[cycle(values)]
    #[tactic(auto, using(crate::proofs::RowVersions::row_versions))]
    fn row_version(&self, version: &BoundRowVersion) -> Result<(Key, VersionRow), Refusal>
        ensures { Gives (spec.row_version (scene self.now.row.now self.now.env.now (L.row_of self.now.versions.now)) version.now) result }
    {
        let key = self.key(version.values.as_slice())?;
        let row = self.versions.version(self.alloc, version.table, &key)?;
        Ok((key, row))
    }

    #[cycle(values)]
    fn scalar(&self, scalar: &BoundScalar) -> Result<Value, Refusal>
        ensures { Gives (spec.scalar (scene self.now.row.now self.now.env.now (L.row_of self.now.versions.now)) scalar.now) result }
    {
        let (key, row) = self.row_version(&scalar.version)?;
        Ok(version_column(self.alloc, scalar.column, &key, row)?)
    }

    /// Lends the value of an expression that stands somewhere: of a column, or of a variable.
    fn lent<'a>(&'a self, expr: &BoundExpr) -> Option<&'a Value>
        ensures { IfSome result (λ value. spec.value (scene self.now.row.now self.now.env.now (L.row_of self.now.versions.now)) expr.now ≡ Ok value.now) }
    {
        let env = self.env;
        match expr {
            BoundExpr::Column(at) => self.row.value_in(*at),
            BoundExpr::Variable(at) => variable_in(env.variables.0.as_slice(), *at),
            _ => None,
        }
    }

    /// The truth of a comparison. Values that stand somewhere are compared there, and not copied.
    fn compared(
        &self,
        operator: Comparison,
        a: &BoundExpr,
        b: &BoundExpr,
    ) -> Result<Option<bool>, Refusal>
        ensures { let s = scene self.now.row.now self.now.env.now (L.row_of self.now.versions.now) in Gives (spec.of_two (compare_values operator) (spec.meaning s a.now) (spec.meaning s b.now)) result }
    {
        match (self.lent(a), self.lent(b)) {
            (Some(a), Some(b)) => Ok(compare(operator, a, b)),
            (Some(a), None) => Ok(compare(operator, a, &self.value(b)?)),
            (None, Some(b)) => Ok(compare(operator, &self.value(a)?, b)),
            (None, None) => {
                let a = self.value(a)?;
                Ok(compare(operator, &a, &self.value(b)?))
            }
        }
    }

    /// IS NULL
    fn is_null(&self, expr: &BoundExpr) -> Result<Option<bool>, Refusal>
        ensures { let s = scene self.now.row.now self.now.env.now (L.row_of self.now.versions.now) in Gives (spec.of_one (λ x. Some (is_null_value x)) (spec.meaning s expr.now)) result }
    {
        match self.lent(expr) {
            Some(value) => Ok(Some(is_null(value))),
            None => Ok(Some(is_null(&self.value(expr)?))),
        }
    }

    /// IS NOT NULL
    fn is_not_null(&self, expr: &BoundExpr) -> Result<Option<bool>, Refusal>
        ensures { let s = scene self.now.row.now self.now.env.now (L.row_of self.now.versions.now) in Gives (spec.of_one (λ x. Some (not (is_null_value x))) (spec.meaning s expr.now)) result }
    {
        match self.lent(expr) {
            Some(value) => Ok(Some(!is_null(value))),
            None => Ok(Some(!is_null(&self.value(expr)?))),
        }
    }

    #[cycle(truths)]
    fn truth(&self, expr: &BoundExpr) -> Result<Option<bool>, Refusal>
        ensures { Gives (spec.truth (scene self.now.row.now self.now.env.now (L.row_of self.now.versions.now)) expr.now) result }
    {
        match expr {
            BoundExpr::Compare(operator, a, b) => self.compared(*operator, a.get(), b.get()),
            BoundExpr::IsNull(a) => self.is_null(a.get()),
            BoundExpr::IsNotNull(a) => self.is_not_null(a.get()),
            BoundExpr::Not(a) => Ok(not3(self.truth(a.get())?)),
            BoundExpr::And(operands) => self.all(operands.as_slice()),
            BoundExpr::Or(operands) => self.any(operands.as_slice()),
            _ => Ok(None),
        }
    }

    #[cycle(truths)]
    #[tactic(auto, using(crate::proofs::Chains::loops))]
    fn all(&self, operands: &[BoundExpr]) -> Result<Option<bool>, Refusal>
        ensures { Gives (spec.conjunction (scene self.now.row.now self.now.env.now (L.row_of self.now.versions.now)) operands.now) result }
    {
        let mut made = Some(true);
        for operand in operands {
            made = and3(made, self.truth(operand)?);
        }
        Ok(made)
    }

    #[cycle(truths)]
    #[tactic(auto, using(crate::proofs::Chains::loops))]
    fn any(&self, operands: &[BoundExpr]) -> Result<Option<bool>, Refusal>
        ensures { Gives (spec.disjunction (scene self.now.row.now self.now.env.now (L.row_of self.now.versions.now)) operands.now) result }
    {
        let mut made = Some(false);
        for operand in operands {
            made = or3(made, self.truth(operand)?);
        }
        Ok(made)
    }
}
