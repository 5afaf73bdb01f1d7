ghost use Rattle.std.specs.Prelude.{◌≡◌, true, false, Ok, IfOk, slice_get};
ghost use Rattle.ct_types.specs.Answers.{Gives};
ghost use Rattle.ct_bind_names.specs.Catalogue.{is_declared};
ghost use Rattle.ct_expr.specs.Meaning.{on, value as value_on};
ghost use Rattle.ct_model.specs.declared.db.Db.{Db};
ghost use Rattle.ct_session.specs.Sessions.{SessionState};
ghost use Rattle.ct_machine.specs.Decide as spec;
ghost use Rattle.ct_machine.specs.Reads.{world_of};
ghost use Rattle.ct_write.specs.Rows.{no_row};
ghost use Rattle.ct_core.specs.Range.{DecisionIsKept};
ghost use Rattle.ct_core.specs.Seeing.{IsEnvOf, seen_with};

use crate::reads::value_of;
use ct_database::Database;
use ct_expr::Env;
use ct_machine::Decision;
use ct_types::{BoundExpr, ColType, Column, Copies, Memory, Refusal, Reply, Stmt, Text, Value};
use ct_write::fit_value;
use std::alloc::Global;

/// A value as one of a variable of this name and type: it has to fit as in a column that may be NULL.
fn fitted(alloc: Global, name: &Text, kind: ColType, value: Value) -> Result<Value, Refusal>
    ensures { Gives (spec.fitting name.now kind (Ok value)) result }
{
    let column = Column {
        name: name.copy(alloc)?,
        kind,
        nullable: true,
    };
    fit_value(alloc, &column, &value)?;
    Ok(value)
}

/// What an expression that names no column comes to, as a value of a variable.
fn assigned(
    alloc: Global,
    db: &Database,
    env: &Env<'_>,
    name: &Text,
    kind: ColType,
    expr: &BoundExpr,
) -> Result<Value, Refusal>
    requires { IsEnvOf db.now env.now }
    ensures { Gives (spec.fitting name.now kind (value_on (on (world_of (seen_with db.now env.now)) no_row) expr.now)) result }
{
    let value = value_of(alloc, db, env, expr)?;
    fitted(alloc, name, kind, value)
}

/// The value that DECLARE gives a variable; NULL where it names none.
fn declared(
    alloc: Global,
    db: &Database,
    env: &Env<'_>,
    name: &Text,
    kind: ColType,
    expr: &Option<BoundExpr>,
) -> Result<Value, Refusal>
    requires { IsEnvOf db.now env.now }
    ensures { Gives (spec.fitting name.now kind (spec.value_or_null (seen_with db.now env.now) expr.now)) result }
{
    match expr {
        None => fitted(alloc, name, kind, Value::Null),
        Some(expr) => assigned(alloc, db, env, name, kind, expr),
    }
}

/// The name that SET gives, as it is written.
fn name_in(alloc: Global, statement: &Stmt) -> Result<Text, Memory>
    ensures { IfOk result (λ made. made ≡ spec.variable_in statement.now) }
{
    match statement {
        Stmt::SetVariable { variable, value: _ } => variable.copy(alloc),
        _ => Text::of(alloc, ""),
    }
}

/// What SET of the variable at a place comes to. The expression is let go.
pub(crate) fn decide_set(
    alloc: Global,
    db: &Database,
    env: &Env<'_>,
    statement: &Stmt,
    place: u32,
    expr: BoundExpr,
) -> Result<Decision, Memory>
    requires env { IsEnvOf db.now env.now }
    requires names { is_declared env.now.variables.0 (spec.variable_in statement.now) ≡ true }
    ensures is { IfOk result (λ made. made ≡ spec.set_variable (seen_with db.now env.now) (spec.variable_in statement.now) (slice_get env.now.variables.0 place) expr) }
    ensures kept { (newest seen : Db) (state : SessionState) → state.variables ≡ env.now.variables.0 → IfOk result (DecisionIsKept newest seen state) }
{
    let Some(variable) = env.variables.0.as_slice().get(place as usize) else {
        return Ok(Decision::Answers(Reply::Done));
    };
    let name = name_in(alloc, statement)?;
    match assigned(alloc, db, env, &name, variable.kind, &expr) {
        Ok(value) => Ok(Decision::Sets(name, value)),
        Err(Refusal::Memory) => Err(Memory),
        Err(refusal) => Ok(Decision::Refuses(refusal)),
    }
}

/// What DECLARE of a variable comes to. The expression is let go.
pub(crate) fn decide_declare(
    alloc: Global,
    db: &Database,
    env: &Env<'_>,
    name: Text,
    kind: ColType,
    expr: Option<BoundExpr>,
) -> Result<Decision, Memory>
    requires env { IsEnvOf db.now env.now }
    requires names { is_declared env.now.variables.0 name ≡ false }
    ensures is { IfOk result (λ made. made ≡ spec.declares name kind (spec.fitting name kind (spec.value_or_null (seen_with db.now env.now) expr))) }
    ensures kept { (newest seen : Db) (state : SessionState) → state.variables ≡ env.now.variables.0 → IfOk result (DecisionIsKept newest seen state) }
{
    match declared(alloc, db, env, &name, kind, &expr) {
        Ok(value) => Ok(Decision::Declares(name, kind, value)),
        Err(Refusal::Memory) => Err(Memory),
        Err(refusal) => Ok(Decision::Refuses(refusal)),
    }
}
